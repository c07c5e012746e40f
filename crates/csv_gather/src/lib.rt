// A file's lines gathered in the order in which they are taken, in one pass and in fixed memory: the least 513, or the first bad line.
#![tactic(auto)]

ghost use Rattle.std.specs.Prelude.{◌≡◌, ◌≤◌, length, drop, IfOk, IfErr};
ghost use Rattle.csv_grammar.specs.Csv.{lines_from};
ghost use Rattle.csv_gather.specs.Gather.{least, wrong, gather, gather_file};

use csv_order::{Table, TableLine};

// The first bad line, by its number.
#[derive(Clone, Copy, Debug, PartialEq, Eq)]
pub struct BadLine {
    pub line: u64,
}

// The lines from `from` on, the first of them line 2.
fn gather_lines(file: &[u8], from: usize, table: &mut Table) -> Result<(), BadLine>
    requires { (3 ≤ from) × (from ≤ length file.now) }
    ensures ok { IfOk result (λ _. gather (lines_from (length (drop from file.now)) 2 (drop from file.now)) ≡ least table.new) }
    ensures err { IfErr result (λ bad. gather (lines_from (length (drop from file.now)) 2 (drop from file.now)) ≡ wrong bad.line) }
{
    table.clear();
    let mut at = from;
    let mut line: u64 = 2;
    // The next line begins where this one ends: the place is counted by no step of its own.
    while at < file.len() {
        let Some(told) = csv_reader::line_at(file, at) else {
            return Err(BadLine { line });
        };
        table.keep(TableLine {
            line,
            radio: told.radio,
            east: told.east,
            north: told.north,
            minute: told.minute,
        });
        at = told.next;
        line += 1;
    }
    Ok(())
}

// All lines of the file. What the table held is of no account.
pub fn gather(file: &[u8], table: &mut Table) -> Result<(), BadLine>
    ensures ok { IfOk result (λ _. gather_file file.now ≡ least table.new) }
    ensures err { IfErr result (λ bad. gather_file file.now ≡ wrong bad.line) }
{
    let Some(start) = csv_reader::header_end(file) else {
        return Err(BadLine { line: 1 });
    };
    gather_lines(file, start, table)
}
