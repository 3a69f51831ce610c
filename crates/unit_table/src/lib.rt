// Unit tables: 12 words, a row of three for each of the four roles, in it a send, a receive without its data, a receive with it.
#![tactic(auto)]

ghost use Rattle.std.specs.Prelude.{◌≡◌, ◌<◌, length};
ghost use Rattle.ranges.specs.Fold.{any_below};
ghost use Rattle.records.specs.Kind.{column};
ghost use Rattle.unit_table.specs.Table.{table_words, table_of, built_in_words, unit_fault, table_refusal};

use records::Kind;

// The words of a unit table, the kinds that one of its rows has, and the least and the largest word.
pub const TABLE_WORDS: usize = 12;

const KINDS: usize = 3;

const LEAST: u32 = 1;

const LARGEST: u32 = 1000;

// The built-in table: a row for each role.
const UNITS: [[u32; KINDS]; 4] = [[2, 3, 5], [2, 4, 6], [3, 8, 9], [2, 5, 7]];

// Writes the words of the built-in table. Word j is of role j / KINDS and column j % KINDS.
pub fn write_built_in(table: &mut [u32])
    requires { length table.old ≡ table_words }
    ensures table { table.new ≡ built_in_words }
    ensures loads { table_refusal table.new ≡ 0 }
{
    for (j, word) in table.iter_mut().enumerate() {
        *word = UNITS[j / KINDS][j % KINDS];
    }
}

// Whether some word is outside what a unit table may have.
fn some_unit_fault(table: &[u32]) -> bool
    ensures answer { result ≡ any_below (unit_fault table.now) (length table.now) }
{
    table.iter().any(|word| *word < LEAST || LARGEST < *word)
}

// Refusal 27.
pub fn table_refusal(table: &[u32]) -> u32
    ensures answer { result ≡ table_refusal table.now }
{
    if table.len() != TABLE_WORDS || some_unit_fault(table) {
        return 27;
    }
    0
}

// The units of a role and a kind.
pub fn units_for(table: &[u32], role: usize, kind: Kind) -> u32
    requires { (length table.now ≡ table_words) × (role < 4) × (column kind < 3) }
    ensures answer { result ≡ table_of table.now role kind }
{
    let column = records::column(kind) as usize;
    table[KINDS * role + column]
}
