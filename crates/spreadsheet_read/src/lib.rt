// Reading a file into a store of its own making, whatever desk and pages hold: all checks come before the first byte is written, then the lines are signed on
// one after the other.
#![tactic(auto)]

ghost use Rattle.std.specs.Prelude.{◌≡◌, length};
ghost use Rattle.page.specs.Buffer.{buffer_bytes};
ghost use Rattle.desk.specs.Making.{found, made};
ghost use Rattle.desk.specs.Sound.{Sound};
ghost use Rattle.csv_grammar.specs.Csv.{Fits};
ghost use Rattle.csv_order.specs.Checks.{stop_in};
ghost use Rattle.csv_order.specs.Table.{listed_of, IsListed};
ghost use Rattle.rules.specs.Watches.{Watched, fresh_watched};
ghost use Rattle.spreadsheet.specs.Read.{sign_on_of, signed_all, verdict};
ghost use Rattle.spreadsheet.specs.Call.{laid_out, Reads};
ghost use Rattle.spreadsheet_read.specs.Signing.{Holds, signed};

use csv_order::{Table, TableLine};
use desk::{Answer, Desk};
use page::BUFFER_BYTES;
use records::Kind;
use terms::Refusal;

// A sign-on's length.
const SIGN_ON_BYTES: usize = 14;

// ---- a line signed on

fn write_record(bytes: &mut [u8; SIGN_ON_BYTES], x: TableLine)
    ensures { bytes.new ≡ sign_on_of (listed_of x).row }
{
    fields::write(bytes, 0, SIGN_ON_BYTES as u16);
    fields::write(bytes, 2, Kind::SignOn.number());
    fields::write(bytes, 4, x.radio);
    fields::write(bytes, 6, x.east);
    fields::write(bytes, 8, x.north);
    fields::write_wide(bytes, 10, x.minute);
}

fn sign_on(desk: &mut Desk, pages: &mut [u8], x: TableLine)
    requires { Sound desk.old pages.old }
    ensures { (w : Watched) → Fits (listed_of x).row → Holds w desk.old pages.old → Holds (signed (listed_of x) w) desk.new pages.new }
{
    let mut bytes = [0u8; SIGN_ON_BYTES];
    write_record(&mut bytes, x);
    carry::carry_sound(desk, pages, &bytes, &mut []);
}

// The lines of the table, one after the other.
fn sign_on_all(desk: &mut Desk, pages: &mut [u8], table: &Table)
    requires { Sound desk.old pages.old }
    ensures { (w : Watched) → Holds w desk.old pages.old → Holds (signed_all table.now w) desk.new pages.new }
{
    for i in 0..table.len() {
        sign_on(desk, pages, table.at(i));
    }
}

// ---- the file

fn read_lines(desk: &mut Desk, pages: &mut [u8], table: &Table) -> Answer
    requires { length pages.old ≡ buffer_bytes }
    ensures { made result desk.new pages.new
        ≡ laid_out (verdict (stop_in table.now) (signed_all table.now fresh_watched)) (found desk.old pages.old) }
{
    if let Some(stop) = table.first_stop() {
        return desk::counted(stop.refusal.number(), stop.line);
    }
    fresh::lay_out(desk, pages);
    sign_on_all(desk, pages, table);
    desk::numbered(0)
}

pub fn read_lent(desk: &mut Desk, pages: &mut [u8], file: &[u8]) -> Answer
    ensures { Reads file.now (found desk.old pages.old) (made result desk.new pages.new) }
{
    if pages.len() != BUFFER_BYTES {
        return Answer::refused(Refusal::WrongSize);
    }
    let mut table = Table::new();
    match csv_gather::gather(file, &mut table) {
        Ok(()) => read_lines(desk, pages, &table),
        Err(bad) => desk::counted(Refusal::BadLine.number(), bad.line),
    }
}
