// The listing program (01, 'The listing program'): it reads, fills a page, writes it, and again. No public calls: no contract can say what is read or written.

#![tactic(auto)]

ghost use Rattle.std.specs.Prelude.{◌≤◌, ◌≡◌, false, length};
ghost use Rattle.listing_spec.specs.Paging.{row_room};
ghost use Rattle.program_reading_inner.specs.Says.{MostSays};
ghost use Rattle.listing_steps_inner.specs.Says.{goes_on};
ghost use Rattle.listing_program_inner.specs.Says.{list_line_bytes, FirstPageSays, Turning};

use listing_spec::Page;
use program_reading_inner::Most;
use std::rt::HostRuntime;

// The number of standard error.
const STDERR_FILENO: i32 = 2;

// The number of standard output.
const STDOUT_FILENO: i32 = 1;

// Where the program stopped: whether the last page could be written, and how many bytes it had.
#[derive(Clone, Copy)]
pub struct Printed {
    pub wrote: bool,
    pub length: usize,
}

// The first page of the output for an input of which that was read: all of it, or as many bytes as there was room for. There has to be room for 9 bytes, of which a
// line has at most 8. Where a read failed there is no page.
fn first_of_input(most: Most, line: &[u8], buf: &mut [u8]) -> Page
    requires list_line_bytes_in_bounds { list_line_bytes ≤ length line.now }
    requires most_says { MostSays most line.now }
    ensures { FirstPageSays most line.now buf.old result buf.new }
{
    match most {
        Most::Full => listing::first_page(line, buf),
        Most::Ended(got) => listing::first_page(&line[..got], buf),
        Most::Failed => listing_steps_inner::no_page(),
    }
}

// Writes a page, and all that follow. Where a write fails, nothing more is written.
fn print_pages(first: Page, buf: &mut [u8]) -> Printed
    requires row_room_in_bounds { row_room ≤ length buf.old }
    requires turning { Turning first (length buf.old) }
    ensures { goes_on result.wrote result.length ≡ false }
{
    let mut page = first;
    loop {
        let m = page.length;
        let wrote = io::write_all(STDOUT_FILENO, &buf[..m]);
        if !listing_steps_inner::goes_on(wrote, m) {
            return Printed { wrote, length: m };
        }
        page = listing::next_page(page.state, buf);
    }
}

// What the program writes for a line, by way of a lent buffer.
pub fn print_through(line: &[u8], buf: &mut [u8])
    requires { row_room ≤ length buf.old }
{
    let first = listing::first_page(line, buf);
    print_pages(first, buf);
}

// The program: the output for standard input on standard output; on standard error why not all of it, if so.
pub fn run(rt: HostRuntime) {
    let mut line = [0u8; 16];
    let most = program_reading_inner::read_most(&mut rt.stdin(), &mut line);
    let mut buf = io::large_buffer();
    let first = first_of_input(most, &line, &mut buf);
    let left = print_pages(first, &mut buf);
    let ended = program_outcome_inner::line_ending(most, left.wrote);
    let m = program_ending_inner::say(ended, &mut buf);
    io::write_all(STDERR_FILENO, &buf[..m]);
}
