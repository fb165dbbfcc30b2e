//! The text of sheets on standard input, as one page of HTML on standard output. It stands on no room of
//! the office: what it reads is what any command of `airdv` printed, today or last year.
//!
//! # What it has
//!
//! - `main`: reads the input, and writes its page; without words. Its statuses are in
//!   `docs/COMMANDS.md`.
//! - `page::page_of`: the page of a text, or that it has none. `reading` finds the sheets of a text, as
//!   sheets in words, and `aq_pages` makes their page.
//! - In `specs/`: `Reading`, how a text is read as sheets, and `Page`, what its page is.
//!
//! # What it promises
//!
//! - A text has a page exactly if it is 1 to 99 sheets in a row, in at most 99,999 lines, each with
//!   the heads and columns of a sheet that a command prints and a word for each column in each row;
//!   unless memory ran out, that page is made, and of any other text none (`page_of`).
//! - The page is that of the sheets, as `aq_pages` defines it: after each title the tables have a row for
//!   each line of the sheet and a cell for each of its words, escaped, in their order, and nothing else.
//!   Its door page has the rest.
//! - A sheet is drawn as the first kind by whose names it can be read
//!   (`sheets_are_drawn_as_they_are_read`).
//! - With 0 the whole page of the input is on the output, and with 2 the input has no page, as far as
//!   the streams tell their bytes; with 2 and 3 nothing is written (`show`).
//! - That the page is good HTML, and what a browser makes of it, is only tried, by `bin/tries-page`.
//!
//! # An example
//!
//! ```sh
//! bin/build page
//! bin/airdv report O3-2015 2024 | crates/airdv_page/out/airdv_page > report.html
//! ```
#![tactic(auto)]

ghost use Rattle.std.specs.Prelude.{◌≡◌, None, IfOk, IfSome};
ghost use Rattle.airdv_page.specs.Page as pages;
ghost use Rattle.airdv_page.specs.Page.{Prints};

mod law;
mod page;
mod reading;

use aq_base::Bytes;
use aq_pages::{FOOT, HEAD};
use page::page_of;
use std::alloc::Global;
use std::io::{self, ErrorKind, Read, Write};
use std::process::ExitCode;

/// Why there is no page of an input.
#[derive(Clone, Copy)]
enum Stop {
    /// It is not the text of sheets.
    NoSheet,
    InputFailed,
    Memory,
}

fn main(rt: HostRuntime) -> ExitCode {
    let mut input = rt.reader();
    let mut output = io::writer(&rt);
    let mut errors = rt.stderr();
    ExitCode::from(show(rt.alloc(), HEAD, FOOT, &mut input, &mut output, &mut errors))
}

/// Prints the page of the input, between these two texts, or says on the errors why there is none.
/// Answers the exit status. The errors bear on nothing.
fn show<R: Read, W: Write, E: Write>(
    alloc: Global,
    head: &[u8],
    foot: &[u8],
    input: &mut R,
    output: &mut W,
    errors: &mut E,
) -> u8
    // The whole page of the input is written.
    ensures printed { result ≡ 0 → IfSome (R.remaining input.old) (λ text. Prints (record { head = head.now; foot = foot.now }) text (W.contents output.old) (W.contents output.new)) }

    // The input is none of sheets.
    ensures refused { result ≡ 2 → IfSome (R.remaining input.old) (λ text. pages.page_of (record { head = head.now; foot = foot.now }) text ≡ None) }

    // Nothing is written.
    ensures silent { result ≡ 2 → output.new ≡ output.old }
    ensures unread { result ≡ 3 → output.new ≡ output.old }
{
    match read_page(alloc, head, foot, input) {
        Ok(page) => {
            if output.write_all(page.as_slice()).is_err() {
                let _ = errors.write_all(b"airdv_page: 4 output failed\n");
                return 4;
            }
            0
        }
        Err(Stop::NoSheet) => {
            let _ = errors.write_all(
                b"airdv_page: 2 the input is not what a command of airdv prints\n",
            );
            2
        }
        Err(Stop::InputFailed) => {
            let _ = errors.write_all(b"airdv_page: 3 input failed\n");
            3
        }
        Err(Stop::Memory) => {
            let _ = errors.write_all(b"airdv_page: 7 memory\n");
            7
        }
    }
}

/// The page of all that is left of an input.
fn read_page<R: Read>(alloc: Global, head: &[u8], foot: &[u8], input: &mut R) -> Result<Bytes, Stop>
    ensures page { IfOk result (λ page. IfSome (R.remaining input.old) (λ text. Some page ≡ pages.page_of (record { head = head.now; foot = foot.now }) text)) }
    ensures none { result ≡ Err Stop.NoSheet → IfSome (R.remaining input.old) (λ text. pages.page_of (record { head = head.now; foot = foot.now }) text ≡ None) }
{
    let mut text = Vec::new(alloc);
    if let Err(error) = input.read_to_end(&mut text) {
        return Err(if error.kind() == ErrorKind::OutOfMemory {
            Stop::Memory
        } else {
            Stop::InputFailed
        });
    }
    match page_of(alloc, &text, head, foot) {
        Ok(Some(page)) => Ok(page),
        Ok(None) => Err(Stop::NoSheet),
        Err(_) => Err(Stop::Memory),
    }
}
