//! The top call: it picks the command of the words.
ghost use Rattle.std.specs.Prelude.{◌≡◌, ◌⊎◌, ℕ, false, true, IfSome, IsNone, IsTrue, IsSome, List, Option, map, string_bytes};
ghost use Rattle.std.specs.Option.{option_map};
ghost use Rattle.aq_rules.specs.Kept.Rows.{Row};
ghost use Rattle.aq_desk.specs.Command.{IsKept, Keeps, RisesAt, Tells, WritesNothing, opened_rows};
ghost use Rattle.aq_desk.specs.Ending.{no_memory};
ghost use Rattle.aq_desk.specs.Office.{OnlyMigrates};
ghost use Rattle.aq_desk.specs.Run.{Acts, AreFaultless, HasReasons, IsComplete, IsRun, KeeperRises, Runs, Surroundings, around_in, asks, hosting_for, hosting_in, outcome_for, reads_input, uses_keeper, writes_output};
ghost use Rattle.aq_desk.specs.Serve.{Around, Hosting, IsServed, around_of};
ghost use Rattle.aq_desk.specs.Stop.{HasRead, ending_at, ending_of, status_of};
ghost use Rattle.aq_words.specs.Words.{command_of, is_command};
ghost use Rattle.aq_words.specs.declared.words.Command.{Command};
ghost use Rattle.aq_desk.specs.declared.status.TheConstants.{DAMAGED, DONE, DOOR_FAILED, INPUT_FAILED, KEEPER_FAILED, NO_MEMORY, OUTPUT_FAILED};

use crate::ask::ask;
use crate::draft::draft;
use crate::load::load;
use crate::scan::scan;
use crate::serve::serve;
use crate::simulate::simulate;
use crate::status::{DONE, NO_COMMAND};
use crate::stop::Stop;
use crate::writing::write_all;
use aq_keeper::Keeper;
use aq_outside::{Door, Sink, Source};
use aq_words::{Command, read_words};
use std::alloc::Global;

/// What is said of words that name no command: the usage text after it has a line for each command.
const NO_COMMAND_TEXT: &[u8] = b"airdv: 2 no command\n\
usage: airdv scan SITE DAY\n\
usage: airdv load NUMBER\n\
usage: airdv try\n\
usage: airdv changes FIRST LAST\n\
usage: airdv show STANDARD SITE YEAR\n\
usage: airdv report STANDARD YEAR\n\
usage: airdv export SITE PARAMETER YEAR\n\
usage: airdv whatif STANDARD SITE YEAR LIST\n\
usage: airdv decisive STANDARD SITE YEAR\n\
usage: airdv combined STANDARD SITE YEAR\n\
usage: airdv area STANDARD AREA YEAR\n\
usage: airdv reply NUMBER\n\
usage: airdv windows SITE DAY\n\
usage: airdv days SITE YEAR\n\
usage: airdv pm25 SITE YEAR\n\
usage: airdv pm10 SITE YEAR\n\
usage: airdv sites\n\
usage: airdv monitors SITE\n\
usage: airdv events SITE\n\
usage: airdv flags SITE PARAMETER YEAR\n\
usage: airdv loads\n\
usage: airdv daily SITE PARAMETER YEAR\n\
usage: airdv highest SITE PARAMETER YEAR\n\
usage: airdv completeness SITE PARAMETER YEAR\n\
usage: airdv reports YEAR\n\
usage: airdv records\n\
usage: airdv lines SITE PARAMETER YEAR\n\
usage: airdv serve --port P --connections N\n\
usage: airdv simulate START SITES YEARS\n";

/// Does what the words ask for, and answers the exit status. A message goes to `errors`, whose failures
/// change nothing. The door has no open connection, as is so of each door when it is made.
pub fn run<K: Keeper, D: Door, S: Source, O: Sink, E: Sink>(
    alloc: Global,
    words: &[String],
    keeper: &mut K,
    door: &mut D,
    input: &mut S,
    output: &mut O,
    errors: &mut E,
) -> u8
    requires none_open { (D.seen door.old).is_open ≡ false }

    // The headline, its first part: of a command that prints, what is answered and written, and the tables after
    // it, are what the command's definition gives for the words, the tables and the input, all of it or, if a
    // count rose or memory ran out, a front of its output. Of the one that serves, each connection's replies are
    // those of its session over the office that the connections before left, from the office of the
    // migrated tables on, and the tables after it are those of the last office; a connection is cut only if
    // a count of the door rose. Tables of version 1 are migrated as the office is opened. With 3 the tables
    // are as before the run, and with 5 as before the call that failed. The message is that of the status.
    // All this is over the rows that the keeper tells, if it tells them to the end, and the bytes of the input.
    // The other parts say why it ended so, and what it left as it was.
    ensures run { IsRun (command_of (map string_bytes words.now)) result
        (record {
          door = D.seen door.old;
          keeper = K.seen keeper.old;
          input = S.seen input.old;
          output = O.seen output.old;
          errors = E.seen errors.old;
        })
        (record {
          door = D.seen door.new;
          keeper = K.seen keeper.new;
          input = S.seen input.new;
          output = O.seen output.new;
          errors = E.seen errors.new;
        }) keeper.old keeper.new door.old door.new input.old input.new output.old output.new }
{
    let Some(command) = read_words(words) else {
        let _ = write_all(errors, NO_COMMAND_TEXT);
        return NO_COMMAND;
    };
    let answer = perform(alloc, &command, keeper, door, input, output);
    finish(answer, errors)
}

/// Over a keeper that tells its tables to the end of a run, as those in memory do, what is said of the tables
/// is exact: those after it, and those that are served once the office is opened.
pub fn told_runs_are_exact()
    ensures kept { (rows : List Row) (status : ℕ) (before after : Option (List Row)) → IsSome after
        → Keeps rows status before after → IsKept status → after ≡ option_map
        (λ _. rows) before }
    ensures failed { (rows : List Row) (status : ℕ) (before after : Option (List Row))
        → IsSome after → Keeps rows status before after → status ≡ KEEPER_FAILED
        → (after ≡ before) ⊎ (after ≡ option_map opened_rows before) }
    ensures one { (rows : List Row) (status : ℕ) (before after : Option (List Row)) → IsSome after
        → Keeps rows status before after → (after ≡ before) ⊎
        (after ≡ option_map opened_rows before) ⊎ (after ≡ option_map (λ _. rows) before) }
    ensures served { (n : Hosting) (rows : List Row) (status : ℕ) (before after : Around)
        → IsSome after.tables → (is : IsServed n rows status before after) → is.opened
        ≡ option_map opened_rows before.tables }
{}

/// If no count of the input, the output, the keeper and the door rises, a run does all of its command, or
/// memory runs out. One that serves has then served, or found tables that cannot be opened.
pub fn runs_without_faults_are_complete()
    ensures prints { (command : Option Command) (status : ℕ) (before after : Surroundings)
        → HasReasons command status before after → AreFaultless before after
        → IsNone (hosting_for command) → (runs : Runs command status before after)
        → (status ≡ NO_MEMORY) ⊎ IsComplete (outcome_for command runs.rows runs.body) status before
        after }
    ensures serves { (command : Option Command) (status : ℕ) (before after : Surroundings)
        → HasReasons command status before after → AreFaultless before after
        → (runs : Runs command status before after) → IfSome (hosting_for command) (λ asked.
        (status ≡ NO_MEMORY) ⊎ (status ≡ DAMAGED) ⊎ ((status ≡ DONE) × IsServed asked runs.rows
        status (around_in before) (around_in after))) }
{}

/// Does a command. Nothing that it does, and no status, depends on the errors stream.
pub fn perform<K: Keeper, D: Door, S: Source, O: Sink>(
    alloc: Global,
    command: &Command,
    keeper: &mut K,
    door: &mut D,
    input: &mut S,
    output: &mut O,
) -> Result<(), Stop>
    requires command { IsTrue (is_command command.now) }
    requires none_open { (D.seen door.old).is_open ≡ false }
    ensures acts { Acts command.now result (S.seen input.old).left (O.seen output.old)
        (O.seen output.new)
        (around_of (D.seen door.old) (K.seen keeper.old))
        (around_of (D.seen door.new) (K.seen keeper.new)) }
    ensures input_failed { RisesAt INPUT_FAILED (status_of result) (S.seen input.old).faults
        (S.seen input.new).faults }
    ensures read { reads_input command.now ≡ true
        → HasRead (status_of result) (S.seen input.old).left (S.seen input.new).left }
    ensures output_failed { RisesAt OUTPUT_FAILED (status_of result) (O.seen output.old).faults
        (O.seen output.new).faults }
    ensures keeper_failed { KeeperRises (hosting_in command.now) (status_of result)
        (K.seen keeper.old).faults (K.seen keeper.new).faults }
    ensures door_failed { RisesAt DOOR_FAILED (status_of result) (D.seen door.old).accepts
        (D.seen door.new).accepts }
    ensures silent { WritesNothing (status_of result) → output.new ≡ output.old }
    ensures gone { uses_keeper command.now ≡ true → IsNone (hosting_in command.now)
        → (output.new ≡ output.old) ⊎ ((K.seen keeper.new).is_held ≡ false) }
    ensures unused_input { reads_input command.now ≡ false → input.new ≡ input.old }
    ensures unused_keeper { uses_keeper command.now ≡ false → keeper.new ≡ keeper.old }
    ensures unused_output { writes_output command.now ≡ false → output.new ≡ output.old }
    ensures unused_door { IsNone (hosting_in command.now) → door.new ≡ door.old }
    ensures only_serve { status_of result ≡ DOOR_FAILED → IsSome (hosting_in command.now) }
    ensures only_migrates { asks command.now ≡ true
        → OnlyMigrates (K.seen keeper.old) (K.seen keeper.new) }
{
    match command {
        Command::Scan { site, day } => scan(alloc, *site, *day, input, output),
        Command::Load(number) => load(alloc, *number, keeper, input, output),
        Command::Draft(it) => draft(alloc, it, keeper, input, output),
        Command::Ask(question) => ask(alloc, question, keeper, output),
        Command::Serve { port, connections } => serve(alloc, *port, *connections, keeper, door),
        Command::Simulate {
            start,
            sites,
            years,
        } => simulate(alloc, *start, *sites, *years, output),
    }
}

/// Ends a program that had no memory to read its words: says so, and answers the status.
pub fn end_without_memory<E: Sink>(errors: &mut E) -> u8
    ensures status { result ≡ NO_MEMORY }
    ensures messages { let ending = no_memory in Tells ending.message (E.seen errors.old)
        (E.seen errors.new) }
{
    tell(&Stop::Memory, errors)
}

/// Answers the status of a command, and says what stopped it.
fn finish<E: Sink>(answer: Result<(), Stop>, errors: &mut E) -> u8
    ensures status { result ≡ status_of answer }
    ensures message { let ending = ending_of answer in Tells ending.message (E.seen errors.old)
        (E.seen errors.new) }
{
    match answer {
        Ok(()) => DONE,
        Err(stop) => tell(&stop, errors),
    }
}

/// Says what stopped a command, and answers the status.
fn tell<E: Sink>(stop: &Stop, errors: &mut E) -> u8
    ensures status { let ending = ending_at stop.now in result ≡ ending.status }
    ensures message { let ending = ending_at stop.now in Tells ending.message (E.seen errors.old)
        (E.seen errors.new) }
{
    let _ = stop.write(errors);
    stop.status()
}
