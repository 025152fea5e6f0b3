//! What the program is told to do, according to its words as `clap` reads them.

ghost use Rattle.std.specs.Prelude.{◌≡◌, IfOk, IsOkAnd, map, option_map, string_bytes};
ghost use Rattle.clap.specs.Words.{AddsSubcommand, FailsBy, fault_of, first_of, found_of, new_app};
ghost use Rattle.clap.specs.Words.{rows_of, subcommand_of, subcommand_rows_of};
ghost use Rattle.pay_cli.specs.Job.{account_rule, asked_of, audit_app, audit_asked, book_app};
ghost use Rattle.pay_cli.specs.Job.{book_asked, check_app, check_asked, desk_app, desk_asked};
ghost use Rattle.pay_cli.specs.Job.{export_app, export_asked, export_rule, files_of, files_rule};
ghost use Rattle.pay_cli.specs.Job.{flag_rule, is_set, IsArgument, IsCommand, job_of_command};
ghost use Rattle.pay_cli.specs.Job.{job_of_words, journal_app, journal_asked, node_app, node_asked};
ghost use Rattle.pay_cli.specs.Job.{option_rule, payd_alone, payd_app, required_rule};
ghost use Rattle.pay_cli.specs.Job.{required_text, statement_app, statement_asked, view_of_job};

use crate::helps::{
    ABOUT, AUDIT_ABOUT, AUDIT_HELP, BOOK_ABOUT, BOOK_HELP, CHECK_ABOUT, CHECK_HELP, DESK_ABOUT,
    DESK_HELP, EXPORT_ABOUT, EXPORT_HELP, JOURNAL_ABOUT, JOURNAL_HELP, NODE_ABOUT, NODE_HELP,
    SIM_ABOUT, SIM_HELP, STATEMENT_ABOUT, STATEMENT_HELP, VERSION,
};
use clap::{Arg, ArgAction, ArgMatches, Command, Error};
use std::alloc::{AllocError, Global};

/// What the program is told to do.
#[derive(Drop)]
pub enum Job<'a> {
    /// Judge the frames on standard input, as a member of this genesis with these keys. Genesis and
    /// keys are each read from the file of this name. Tell what values pay, if that is requested.
    Check {
        genesis: Option<&'a str>,
        keys: Option<&'a str>,
        tells_values: bool,
    },
    /// Answer the lines on standard input, as the desk of the member with these keys. Genesis and
    /// keys are each read from the file of this name.
    Desk {
        genesis: &'a str,
        keys: &'a str,
    },
    /// Answer these lines over a node of that member among its peers, as these words say.
    Node(NodeWords<'a>),
    /// Write the export of that member from the folder of this name.
    Export {
        genesis: &'a str,
        keys: &'a str,
        folder: &'a str,
    },
    /// Say what is wrong with the exports in the files of these names, if anything is, or all that
    /// is wrong with them.
    Audit {
        files: Vec<&'a str>,
        all: bool,
    },
    /// Write the group ledger of the exports in the files of these names: in lines, or as a genesis
    /// or an export.
    Book {
        files: Vec<&'a str>,
        as_genesis: bool,
        as_export: bool,
    },
    /// Write the statement of this account, or of all, from the export in the file of this name.
    Statement {
        export: &'a str,
        account: Option<&'a str>,
    },
    /// Write the journal of the export in the file of this name, on this date or on today's.
    Journal {
        export: &'a str,
        date: Option<&'a str>,
    },
    /// Play the script on standard input.
    Sim,
}

/// The words of a node.
#[derive(Clone, Copy, Debug)]
pub struct NodeWords<'a> {
    /// The names of the files of genesis, keys and ports.
    pub genesis: &'a str,
    pub keys: &'a str,
    pub ports: &'a str,
    /// How often the node connects to a peer, and its pipelining depth.
    pub dials: Option<&'a str>,
    pub ahead: Option<&'a str>,
    /// The folder of the member, if one is named, whether the member is made there, and whether it
    /// stays when the lines end.
    pub folder: Option<&'a str>,
    pub makes_new: bool,
    pub stays: bool,
    /// The socket for clients of its desk, if one is named.
    pub socket: Option<&'a str>,
}

/// Returns what `words` request. The first of them is the program's name. Otherwise it returns
/// help, the version, or what is wrong with the words. Without a command the job is `check`.
// promise: words and files
pub fn job_of<'a>(alloc: Global, words: &'a [String]) -> Result<Job<'a>, Error>
    ensures value { IfOk result
        (λ job. view_of_job job ≡ job_of_words (map string_bytes words.now)) }
    ensures fault { FailsBy (fault_of payd_app (map string_bytes words.now)) result }
{
    let matches = matches_of(alloc, words)?;
    Ok(job_in(alloc, &matches)?)
}

/// Returns what `words` match, or why they don't.
fn matches_of<'a>(alloc: Global, words: &'a [String]) -> Result<ArgMatches<'a>, Error>
    ensures command { IfOk result (λ matches.
        subcommand_rows_of matches ≡ subcommand_of payd_app (map string_bytes words.now)) }
    ensures fault { FailsBy (fault_of payd_app (map string_bytes words.now)) result }
{
    let command = payd(alloc)?;
    command.try_get_matches_from(words)
}

/// Returns the job of the command in `matches`, and `check` if there is none.
fn job_in<'a>(alloc: Global, matches: &ArgMatches<'a>) -> Result<Job<'a>, AllocError>
    ensures { IfOk result
        (λ job. view_of_job job ≡ job_of_command (subcommand_rows_of matches.now)) }
{
    match matches.subcommand() {
        Some((name, command)) => command_job(alloc, name, command),
        None => Ok(Job::Check {
            genesis: None,
            keys: None,
            tells_values: false,
        }),
    }
}

/// Returns the job of the command `name`.
fn command_job<'a>(
    alloc: Global,
    name: &str,
    command: &ArgMatches<'a>,
) -> Result<Job<'a>, AllocError>
    ensures { IfOk result
        (λ job. view_of_job job ≡ asked_of name.now (rows_of (found_of command.now))) }
{
    if name == "desk" {
        Ok(desk_job(command))
    } else if name == "node" {
        Ok(node_job(command))
    } else if name == "export" {
        Ok(export_job(command))
    } else if name == "audit" {
        audit_job(alloc, command)
    } else if name == "book" {
        book_job(alloc, command)
    } else if name == "statement" {
        Ok(statement_job(command))
    } else if name == "journal" {
        Ok(journal_job(command))
    } else if name == "sim" {
        Ok(Job::Sim)
    } else {
        Ok(check_job(command))
    }
}

/// Returns the job of `check` with these options.
fn check_job<'a>(check: &ArgMatches<'a>) -> Job<'a>
    ensures { view_of_job result ≡ check_asked (rows_of (found_of check.now)) }
{
    Job::Check {
        genesis: option_value(check, "genesis"),
        keys: option_value(check, "keys"),
        tells_values: is_set(check, "values"),
    }
}

/// Returns the job of `desk` with these options.
fn desk_job<'a>(desk: &ArgMatches<'a>) -> Job<'a>
    ensures { view_of_job result ≡ desk_asked (rows_of (found_of desk.now)) }
{
    Job::Desk {
        genesis: required_value(desk, "genesis"),
        keys: required_value(desk, "keys"),
    }
}

/// Returns the job of `node` with these options.
fn node_job<'a>(node: &ArgMatches<'a>) -> Job<'a>
    ensures { view_of_job result ≡ node_asked (rows_of (found_of node.now)) }
{
    Job::Node(NodeWords {
        genesis: required_value(node, "genesis"),
        keys: required_value(node, "keys"),
        ports: required_value(node, "ports"),
        dials: option_value(node, "dials"),
        ahead: option_value(node, "ahead"),
        folder: option_value(node, "data"),
        makes_new: is_set(node, "new"),
        stays: is_set(node, "stay"),
        socket: option_value(node, "socket"),
    })
}

/// Returns the job of `export` with these options.
fn export_job<'a>(export: &ArgMatches<'a>) -> Job<'a>
    ensures { view_of_job result ≡ export_asked (rows_of (found_of export.now)) }
{
    Job::Export {
        genesis: required_value(export, "genesis"),
        keys: required_value(export, "keys"),
        folder: required_value(export, "data"),
    }
}

/// Returns the job of `audit` with these files and options.
fn audit_job<'a>(alloc: Global, audit: &ArgMatches<'a>) -> Result<Job<'a>, AllocError>
    ensures { IfOk result (λ job. view_of_job job ≡ audit_asked (rows_of (found_of audit.now))) }
{
    Ok(Job::Audit {
        files: files_in(alloc, audit)?,
        all: is_set(audit, "all"),
    })
}

/// Returns the job of `book` with these files and flags.
fn book_job<'a>(alloc: Global, book: &ArgMatches<'a>) -> Result<Job<'a>, AllocError>
    ensures { IfOk result (λ job. view_of_job job ≡ book_asked (rows_of (found_of book.now))) }
{
    Ok(Job::Book {
        files: files_in(alloc, book)?,
        as_genesis: is_set(book, "genesis"),
        as_export: is_set(book, "export"),
    })
}

/// Returns the names of files that `command` was given.
fn files_in<'a>(alloc: Global, command: &ArgMatches<'a>) -> Result<Vec<&'a str>, AllocError>
    ensures { IfOk result (λ files.
        map (λ name. name.now) files.items ≡ files_of (rows_of (found_of command.now))) }
{
    match command.get_strs("files") {
        Some(files) => Ok(Vec::from_slice(alloc, files)?),
        None => Ok(Vec::new(alloc)),
    }
}

/// Returns the job of `statement` with this export and account.
fn statement_job<'a>(statement: &ArgMatches<'a>) -> Job<'a>
    ensures { view_of_job result ≡ statement_asked (rows_of (found_of statement.now)) }
{
    Job::Statement {
        export: required_value(statement, "export"),
        account: option_value(statement, "account"),
    }
}

/// Returns the job of `journal` with this export and date.
fn journal_job<'a>(journal: &ArgMatches<'a>) -> Job<'a>
    ensures { view_of_job result ≡ journal_asked (rows_of (found_of journal.now)) }
{
    Job::Journal {
        export: required_value(journal, "export"),
        date: option_value(journal, "date"),
    }
}

/// Returns the value of `option`, if it was given.
fn option_value<'a>(matches: &ArgMatches<'a>, option: &str) -> Option<&'a str>
    ensures { option_map (λ word. word.now) result
        ≡ first_of option.now (rows_of (found_of matches.now)) }
{
    matches.get_str(option)
}

/// Returns whether `flag` was given.
fn is_set(matches: &ArgMatches, flag: &str) -> bool
    ensures { result ≡ is_set flag.now (rows_of (found_of matches.now)) }
{
    match option_value(matches, flag) {
        Some(word) => word == "true",
        None => false,
    }
}

/// Returns the value of a required `option`: the words aren't read without it.
fn required_value<'a>(matches: &ArgMatches<'a>, option: &str) -> &'a str
    ensures { result.now ≡ required_text option.now (rows_of (found_of matches.now)) }
{
    matches.get_str(option).unwrap_or("")
}

/// Returns the program and its commands.
fn payd<'a>(alloc: Global) -> Result<Command<'a>, AllocError>
    ensures { IfOk result (λ command. IsCommand command payd_app) }
{
    let program = with_command(Ok(payd_alone(alloc)), check(alloc));
    let program = with_command(program, desk(alloc));
    let program = with_command(program, node(alloc));
    let program = with_command(program, exporting(alloc));
    let program = with_command(program, audit(alloc));
    let program = with_command(program, book(alloc));
    let program = with_command(program, statement(alloc));
    let program = with_command(program, journal(alloc));
    with_command(
        program,
        Ok(titled_command(alloc, "sim", SIM_ABOUT, SIM_HELP)),
    )
}

/// Returns `program` with one more `command`, if both could be made.
fn with_command<'a>(
    program: Result<Command<'a>, AllocError>,
    command: Result<Command<'a>, AllocError>,
) -> Result<Command<'a>, AllocError>
    ensures { IfOk result (λ with. IsOkAnd program.entry (λ program.
        IsOkAnd command.entry (λ command. AddsSubcommand program command with))) }
{
    program?.subcommand(command?)
}

fn payd_alone<'a>(alloc: Global) -> Command<'a>
    ensures { IsCommand result payd_alone }
{
    Command::new(alloc, "payd")
        .about(ABOUT)
        .version(VERSION)
        .disable_help_subcommand(true)
}

/// Returns the command `check` and its options.
fn check<'a>(alloc: Global) -> Result<Command<'a>, AllocError>
    ensures { IfOk result (λ command. IsCommand command check_app) }
{
    titled_command(alloc, "check", CHECK_ABOUT, CHECK_HELP)
        .arg(file_option(alloc, "genesis", "A file of JSON with the genesis"))?
        .arg(file_option(alloc, "keys", "A file of JSON with the keys of one member"))?
        .arg(flag(alloc, "values", "Tells what the value of each frame pays"))
}

/// Returns the command `desk` and its options.
fn desk<'a>(alloc: Global) -> Result<Command<'a>, AllocError>
    ensures { IfOk result (λ command. IsCommand command desk_app) }
{
    titled_command(alloc, "desk", DESK_ABOUT, DESK_HELP)
        .arg(required_file(alloc, "genesis", "A file of JSON with the genesis"))?
        .arg(required_file(alloc, "keys", "A file of JSON with the keys of one member"))
}

/// Returns the command `node` and its options.
fn node<'a>(alloc: Global) -> Result<Command<'a>, AllocError>
    ensures { IfOk result (λ command. IsCommand command node_app) }
{
    titled_command(alloc, "node", NODE_ABOUT, NODE_HELP)
        .arg(required_file(alloc, "genesis", "A file of JSON with the genesis"))?
        .arg(required_file(alloc, "keys", "A file of JSON with the keys of the member"))?
        .arg(required_file(
            alloc,
            "ports",
            "A file of JSON with the port of each member",
        ))?
        .arg(option(
            alloc,
            "dials",
            "COUNT|always",
            "How often a peer is dialed in vain",
        ))?
        .arg(option(
            alloc,
            "ahead",
            "COUNT",
            "How many frames are asked for ahead, from 1 to 1024",
        ))?
        .arg(option(
            alloc,
            "data",
            "FOLDER",
            "The folder in which the member is kept",
        ))?
        .arg(flag(alloc, "new", "Makes the member in a folder without a log"))?
        .arg(flag(
            alloc,
            "stay",
            "Goes on at the end of the lines, with a folder",
        ))?
        .arg(option(
            alloc,
            "socket",
            "PATH",
            "The socket for further clients, in place of desk in the folder",
        ))
}

/// Returns the command `export` and its options.
fn exporting<'a>(alloc: Global) -> Result<Command<'a>, AllocError>
    ensures { IfOk result (λ command. IsCommand command export_app) }
{
    titled_command(alloc, "export", EXPORT_ABOUT, EXPORT_HELP)
        .arg(required_file(alloc, "genesis", "A file of JSON with the genesis"))?
        .arg(required_file(alloc, "keys", "A file of JSON with the keys of the member"))?
        .arg(required_folder(alloc, "data", "The folder in which the member is kept"))
}

/// Returns the command `audit`, its files and its options.
fn audit<'a>(alloc: Global) -> Result<Command<'a>, AllocError>
    ensures { IfOk result (λ command. IsCommand command audit_app) }
{
    titled_command(alloc, "audit", AUDIT_ABOUT, AUDIT_HELP)
        .arg(files(alloc))?
        .arg(flag(alloc, "all", "Names all that is wrong, by the files"))
}

/// Returns the command `book`, its files and its flags.
fn book<'a>(alloc: Global) -> Result<Command<'a>, AllocError>
    ensures { IfOk result (λ command. IsCommand command book_app) }
{
    titled_command(alloc, "book", BOOK_ABOUT, BOOK_HELP)
        .arg(files(alloc))?
        .arg(flag(
            alloc,
            "genesis",
            "Writes the genesis of the next group in place of the lines",
        ))?
        .arg(flag(
            alloc,
            "export",
            "Writes the book as an export in place of the lines",
        ))
}

/// Returns the command `statement`, its export and its account.
fn statement<'a>(alloc: Global) -> Result<Command<'a>, AllocError>
    ensures { IfOk result (λ command. IsCommand command statement_app) }
{
    titled_command(alloc, "statement", STATEMENT_ABOUT, STATEMENT_HELP)
        .arg(export(alloc))?
        .arg(account(alloc))
}

/// Returns the command `journal`, its export and its date.
fn journal<'a>(alloc: Global) -> Result<Command<'a>, AllocError>
    ensures { IfOk result (λ command. IsCommand command journal_app) }
{
    titled_command(alloc, "journal", JOURNAL_ABOUT, JOURNAL_HELP)
        .arg(export(alloc))?
        .arg(option(alloc, "date", "YYYY-MM-DD", "The date of all transactions"))
}

/// Returns the command `name` without options, with the text of its `help`.
fn titled_command<'a>(alloc: Global, name: &'a str, about: &'a str, help: &'a str) -> Command<'a>
    ensures { IsCommand result (new_app name.entry.now) }
{
    Command::new(alloc, name).about(about).after_help(help)
}

/// Returns the option `name`, with the name of a file.
fn file_option<'a>(alloc: Global, name: &'a str, help: &'a str) -> Arg<'a>
    ensures { IsArgument result (option_rule name.entry.now) }
{
    option(alloc, name, "FILE", help)
}

/// Returns the option `name`, with a `word`.
fn option<'a>(alloc: Global, name: &'a str, word: &'a str, help: &'a str) -> Arg<'a>
    ensures { IsArgument result (option_rule name.entry.now) }
{
    Arg::new(alloc, name).long(name).value_name(word).help(help)
}

/// Returns the required option `name`, with the name of a file.
fn required_file<'a>(alloc: Global, name: &'a str, help: &'a str) -> Arg<'a>
    ensures { IsArgument result (required_rule name.entry.now) }
{
    file_option(alloc, name, help).required(true)
}

/// Returns the required option `name`, with the name of a folder.
fn required_folder<'a>(alloc: Global, name: &'a str, help: &'a str) -> Arg<'a>
    ensures { IsArgument result (required_rule name.entry.now) }
{
    option(alloc, name, "FOLDER", help).required(true)
}

/// Returns the option `name`, without a word.
fn flag<'a>(alloc: Global, name: &'a str, help: &'a str) -> Arg<'a>
    ensures { IsArgument result (flag_rule name.entry.now) }
{
    Arg::new(alloc, name)
        .long(name)
        .action(ArgAction::SetTrue)
        .help(help)
}

/// Returns the name of a file with an export.
fn export<'a>(alloc: Global) -> Arg<'a>
    ensures { IsArgument result export_rule }
{
    Arg::new(alloc, "export")
        .required(true)
        .value_name("EXPORT")
        .help("A file of JSON with an export")
}

/// Returns the number of an account.
fn account<'a>(alloc: Global) -> Arg<'a>
    ensures { IsArgument result account_rule }
{
    Arg::new(alloc, "account")
        .value_name("ACCOUNT")
        .help("An account's number")
}

/// Returns the names of one or more files.
fn files<'a>(alloc: Global) -> Arg<'a>
    ensures { IsArgument result files_rule }
{
    Arg::new(alloc, "files")
        .required(true)
        .action(ArgAction::Append)
        .value_name("FILE")
        .help("A file of JSON with an export")
}
