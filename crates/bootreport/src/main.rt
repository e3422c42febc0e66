// Reads an image file (MCS text) from standard input and prints what a chip built with its image
// loads, or why there is no such chip. All of that is `filereport::report`; here it is read and
// written.
#![tactic(auto)]

ghost use Rattle.std.specs.Prelude.{◌≡◌, length};
ghost use Rattle.filereport.specs.Filereport.{file_report, file_output};

use filereport::report;
use input::read_full;

// Room for so many bytes.
// Stays: fixed memory: no text or report that is longer is read or made.
fn buffer<const N: usize>() -> [u8; N] {
    [0; N]
}

// The report of a text: how many bytes it has in the buffer. No report is longer than the buffer (`FileReportFits`), so none
// is refused: that is what the proof shows.
fn whole_report(text: &[u8], out: &mut [u8; 55281]) -> usize
    ensures value { result ≡ length (file_report text.now) }
    ensures out_after { out.new ≡ file_output text.now out.old }
{
    report(text, out).unwrap()
}

// Where the report is cut or lost, standard error says so, as far as it can.
fn print(rt: &(impl Print + Eprint), report: &[u8]) {
    if rt.write_all(report).is_err() {
        let _ = eprint!(rt; "bootreport: the report could not be written whole\n");
    }
}

fn main(rt: HostRuntime) {
    // One byte more than the longest text that is read, so that a longer one shows.
    let mut text = buffer::<65537>();
    let length = read_full(&mut rt.stdin(), &mut text);
    let mut out = buffer::<55281>();
    let written = whole_report(&text[..length], &mut out);
    print(&rt, &out[..written]);
}
