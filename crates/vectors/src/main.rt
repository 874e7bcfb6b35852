// Runs cases through the public entries and prints what each gives, one line for each answer. The cases come from standard
// input, one request a line: a word, then numbers parted by one space. What a request sets up stays until it is set up anew.
//
//   case NAME               the name that the lines of the answers begin with
//   text                    an empty text
//   bytes TIMES LENGTH      from the next line on LENGTH bytes and a line feed: these bytes added to the text so many times
//   types N, rows N, due N  from the next line on N numbers, each ended by one byte: the first words of an area, zero past
//   areas T R D             how many words of types, rows and due are lent
//   counts TYPES ROWS       how many types and rows the tables are said to have
//   read                    read_net: the counts, and the sum over the words in use of word times position, from 1
//   check                   check_net
//   slack P W W W W         slack_of: a placement of these words, P words lent
//   plan P L T W            plan_net: placement, loads, times and words lent at these lengths
//   marks                   the placement that plan_net returned last
//   planned                 slack_of: that placement
//   list ROW P Q L T W      list_at: loads and times of the list, and the work, lent at these lengths
//   loads ROW P L T W       loads_at: loads of the list, and the work, lent at these lengths
//
// A length is cut to the program's own area, which is longer than the room. A malformed request ends the run with `bad case`.
// Before a call the areas that it may write are stamped. `kept` says that each word holds its stamp where the paper leaves it as
// it was, `changed` that one does not; `cleared` that the room of the work area is all zero, `left` that it is not.
#![tactic(auto)]

mod asking;

use cases::requests;
use cases::requests::Request;
use cases::setup::Setup;
use rooms::PLACEMENT_ROOM;
use writing::say;

const INPUT_ROOM: usize = 262_144;

// Standard output, as the system numbers it.
const STDOUT: i32 = 1;

// A write that fails is passed over: what comes after it is tried all the same. std's own standard output would assume more contracts of C.
fn stdout(bytes: &[u8]) {
    io::write_all(STDOUT, bytes);
}

// The requests in turn, up to the end of the input or to one that is malformed.
fn run(input: &[u8]) -> Option<()> {
    let mut setup = Setup::new();
    let mut best = [0u64; PLACEMENT_ROOM];
    let mut name = &input[..0];
    let mut rest = input;
    // Each request says how far it reaches.
    while !rest.is_empty() {
        let (request, after) = requests::next_request(rest)?;
        rest = after;
        match request {
            Request::Case(named) => name = named,
            Request::Set(setting) => rest = setup.set(setting, after)?,
            Request::Ask(question, line) => {
                stdout(name);
                say!(" ");
                stdout(line);
                say!(":");
                asking::ask(question, &mut setup, &mut best);
                say!("\n");
            }
        }
    }
    Some(())
}

fn main() {
    let mut input = [0u8; INPUT_ROOM];
    let n = io::read_full(0, &mut input);
    // A full buffer may hold a part of the cases only.
    if n == INPUT_ROOM || run(&input[..n]).is_none() {
        say!("bad case\n");
    }
}
