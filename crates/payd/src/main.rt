//! The program `payd`: its words lead to a loop, and the loop's end to a status.
#![tactic(auto)]

ghost use Rattle.std.specs.Prelude.{◌≡◌, IfErr, IfOk, map};
ghost use Rattle.std.specs.Option.{option_map};
ghost use Rattle.std.specs.Process.{exit_status};
ghost use Rattle.pay_link.specs.Keys.{IsKeysOf};
ghost use Rattle.payd.specs.Files.{IsVerdictOn};
ghost use Rattle.payd.specs.Statuses.{audit_status, book_status, ended_status, sim_status};
ghost use Rattle.payd.specs.Texts.{IsAuditStop, IsBookIn, IsBookStop};
ghost use Rattle.payd.specs.Texts.{IsNoStatementIn, IsStatementIn, form_by};

mod advice;
mod figures;
mod files;
mod folders;
mod groups;
mod metrics;
mod nodes;
mod options;
mod saying;
mod sockets;
mod staying;
mod stop;
mod texts;
mod times;

use advice::{control_in, say_advice, say_mistake};
use clap::error::ErrorKind;
use files::{NamedFiles, export_of, member_of, member_or_test};
use nodes::{export, serve_node};
use options::date_of;
use pay_audit::Verdict;
use pay_cli::{Checker, Job, NOT_UTF8, job_of, run_check};
use pay_desk::{Desk, OneMember, Teller, run_desk};
use pay_echo::MaskInstance;
use pay_frame::{EngineFault, Reader, StreamFault, Writer, write_text};
use pay_journal::journal_text;
use pay_link::{Genesis, Keys};
use pay_member::Member;
use pay_node::OwnMember;
use pay_pending::WaitingBook;
use pay_sim::{SimEnd, run_sim};
use saying::say_place;
use std::alloc::{AllocError, AllocGlobal, Global};
use std::fs::File;
use std::process::ExitCode;
use std::rt::{Env, Files};
use std::time::Clock;
use std::{env, io};
use stop::Stop;
use texts::{Findings, book_over, findings_over, form_of, statement_said, verdict_said};

fn main(rt: HostRuntime) -> ExitCode {
    let Ok(_held) = hold_standard_descriptors(&rt) else {
        return ExitCode::from(3);
    };
    let alloc = rt.alloc();
    let words = match words_given(&rt) {
        Ok(words) => words,
        Err(error) => return status_without_words(&rt, &error),
    };
    if let Some(place) = control_in(words.as_slice()) {
        return status_of(&rt, Err(Stop::Control(place)));
    }
    match job_of(alloc, words.as_slice()) {
        Ok(
            Job::Check {
                genesis,
                keys,
                tells_values,
            },
        ) => status_of(&rt, check(alloc, &rt, genesis, keys, tells_values)),
        Ok(Job::Desk { genesis, keys }) => status_of(&rt, serve_desk(alloc, &rt, genesis, keys)),
        Ok(Job::Node(words)) => {
            let folder = words.folder;
            status_at(&rt, serve_node(alloc, &rt, words), folder)
        }
        Ok(
            Job::Export {
                genesis,
                keys,
                folder,
            },
        ) => status_at(&rt, export(alloc, &rt, genesis, keys, folder), Some(folder)),
        Ok(Job::Audit { files, all }) => {
            status_of_audit(&rt, audit(alloc, &rt, &rt, files.as_slice(), all))
        }
        Ok(
            Job::Book {
                files,
                as_genesis,
                as_export,
            },
        ) => status_of_book(
            &rt,
            book(alloc, &rt, &rt, files.as_slice(), as_genesis, as_export),
        ),
        Ok(Job::Statement { export, account }) => {
            status_of(&rt, statement(alloc, &rt, export, account))
        }
        Ok(Job::Journal { export, date }) => status_of(&rt, journal(alloc, &rt, export, date)),
        Ok(Job::Sim) => status_of_sim(&rt, sim(alloc, &rt)),
        Err(answer) => status_of_answer(&rt, &answer),
    }
}

/// Opens `/dev/null` three times. A closed standard descriptor is open then, so no file or socket
/// gets its number, and nothing printed on it reaches either.
fn hold_standard_descriptors(rt: &impl Files<File = File>) -> io::Result<[File; 3]> {
    let open = || File::options().read(true).write(true).open(rt, "/dev/null");
    Ok([open()?, open()?, open()?])
}

/// Returns the words that the program was called with. The first of them is its name.
fn words_given(rt: &(impl Env + AllocGlobal)) -> io::Result<Vec<String>> {
    let mut given = Vec::new(rt.alloc());
    for word in env::args(rt)? {
        given.push(word)?;
    }
    Ok(given)
}

/// Judges the frames on standard input, after the files `genesis` and `keys` are read.
fn check<'a>(
    alloc: Global,
    rt: &(impl Files + Input + Print),
    genesis: Option<&'a str>,
    keys: Option<&'a str>,
    tells_values: bool,
) -> Result<(), Stop<'a>> {
    let (genesis, keys) = member_or_test(alloc, rt, genesis, keys)?;
    let checker = Checker {
        keys: &keys,
        tells_values,
    };
    Ok(judge_frames(alloc, rt, &genesis, &checker)?)
}

/// Judges the frames as the member of `checker`.
fn judge_frames(
    alloc: Global,
    rt: &(impl Input + Print),
    genesis: &Genesis,
    checker: &Checker<'_>,
) -> Result<(), EngineFault>
    requires { IsKeysOf genesis.now checker.now.keys.now }
{
    let tagger = checker.keys.tagger(alloc)?;
    let mut reader = Reader::new(rt.reader());
    let mut writer = Writer::new(io::writer(rt));
    run_check(alloc, &tagger, genesis, checker, &mut reader, &mut writer)
}

/// Answers the lines on standard input, after the files `genesis` and `keys` are read. The member
/// has no peers.
fn serve_desk<'a>(
    alloc: Global,
    rt: &(impl Files + Input + Print),
    genesis: &'a str,
    keys: &'a str,
) -> Result<(), Stop<'a>> {
    let (genesis, keys) = member_of(alloc, rt, genesis, keys)?;
    let (accounts, own) = (genesis.members(), keys.own());
    let member: OwnMember = Member::new(alloc, genesis, keys)?;
    let teller = OneMember { member, stamp: 0 };
    Ok(answer_lines(alloc, rt, teller, accounts, own)?)
}

/// Answers the lines on standard input, as the desk of this `teller`.
fn answer_lines<T: Teller + Drop>(
    alloc: Global,
    rt: &(impl Input + Print),
    teller: T,
    accounts: u16,
    own: u16,
) -> Result<(), StreamFault> {
    let mut desk = Desk::new(alloc, teller, accounts, own);
    let mut reader = Reader::new(rt.reader());
    let mut writer = Writer::new(io::writer(rt));
    run_desk(alloc, &mut desk, &mut reader, &mut writer)
}

/// Prints what is wrong with the exports in the files of these `names`, if anything is, or all that
/// is wrong if `all` is set.
fn audit<'a, R: Print, F: NamedFiles>(
    alloc: Global,
    rt: &R,
    files: &F,
    names: &[&'a str],
    all: bool,
) -> Result<Verdict, Stop<'a>>
    ensures verdict { IfOk result (IsVerdictOn (F.holds files.now)
        (map (λ name. name.now) names.now)) }
    ensures stop { IfErr result (IsAuditStop (F.holds files.now)
        (map (λ name. name.now) names.now)) }
{
    let Findings { verdict, text } = if all {
        findings_over(alloc, files, names)?
    } else {
        verdict_said(alloc, files, names)?
    };
    print_text(rt, text)?;
    Ok(verdict)
}

/// Prints the group ledger of the exports in the files of these `names`, and returns whether there
/// is one.
// promise: group's book
fn book<'a, R: Print, F: NamedFiles>(
    alloc: Global,
    rt: &R,
    files: &F,
    names: &[&'a str],
    as_genesis: bool,
    as_export: bool,
) -> Result<bool, Stop<'a>>
    ensures is_book { IfOk result (IsBookIn (F.holds files.now)
        (map (λ name. name.now) names.now) (form_by as_genesis as_export)) }
    ensures stop { IfErr result (IsBookStop (F.holds files.now)
        (map (λ name. name.now) names.now) (form_by as_genesis as_export)) }
{
    let form = form_of(as_genesis, as_export)?;
    let said = book_over(alloc, files, names, form)?;
    let is_book = said.is_book;
    print_text(rt, said.text)?;
    Ok(is_book)
}

/// Prints the statement of `account`, or those of all accounts, from the file `export`.
fn statement<'a>(
    alloc: Global,
    rt: &(impl Files + Print),
    export: &'a str,
    account: Option<&'a str>,
) -> Result<(), Stop<'a>> {
    let text = statement_in(alloc, rt, export, account)?;
    Ok(print_text(rt, text)?)
}

/// Returns the statement of `account`, or those of all accounts, from the file `export`.
// promise: statements of exports
fn statement_in<'a, F: NamedFiles>(
    alloc: Global,
    files: &F,
    export: &'a str,
    account: Option<&'a str>,
) -> Result<Vec<u8>, Stop<'a>>
    ensures text { IfOk result (λ text. IsStatementIn (F.holds files.now) export.entry.now
        (option_map (λ word. word.now) account.entry) text.items) }
    ensures stop { IfErr result (IsNoStatementIn (F.holds files.now) export.entry.now
        (option_map (λ word. word.now) account.entry)) }
{
    let export = export_of(alloc, files, export)?;
    statement_said(alloc, &export, account)
}

/// Prints the journal of the file `export`, on this `date` or on today's.
fn journal<'a>(
    alloc: Global,
    rt: &(impl Files + Print + Clock),
    export: &'a str,
    date: Option<&'a str>,
) -> Result<(), Stop<'a>> {
    let text = journal_in(alloc, rt, export, date)?;
    Ok(print_text(rt, text)?)
}

/// Returns the journal of the file `export`, on this `date` or on today's.
fn journal_in<'a>(
    alloc: Global,
    rt: &(impl Files + Clock),
    export: &'a str,
    date: Option<&'a str>,
) -> Result<Vec<u8>, Stop<'a>> {
    let date = date_of(alloc, rt, date)?;
    let export = export_of(alloc, rt, export)?;
    Ok(journal_text(alloc, &export, date)?)
}

/// Prints `text`, which is in memory as a whole.
fn print_text(rt: &impl Print, text: Vec<u8>) -> Result<(), StreamFault>
    ensures { IfErr result (λ fault. fault ≡ StreamFault.Write) }
{
    let mut writer = Writer::new(io::writer(rt));
    write_text(&mut writer, text.as_slice())
}

/// Plays the script on standard input.
fn sim(alloc: Global, rt: &(impl Input + Print)) -> Result<SimEnd, StreamFault> {
    let mut reader = Reader::new(rt.reader());
    let mut writer = Writer::new(io::writer(rt));
    run_sim::<MaskInstance, WaitingBook, _, _>(alloc, &mut reader, &mut writer)
}

/// Returns the status of what is done without a folder.
fn status_of(rt: &impl Eprint, ended: Result<(), Stop>) -> ExitCode
    ensures { exit_status result ≡ ended_status ended.entry }
{
    status_at(rt, ended, None)
}

/// Returns the status. A fault in the frames and a member that lost state have their lines already.
/// Another fault is named on standard error, with what more can be said about it.
fn status_at(rt: &impl Eprint, ended: Result<(), Stop>, folder: Option<&str>) -> ExitCode
    ensures { exit_status result ≡ ended_status ended.entry }
{
    match ended {
        Ok(()) => ExitCode::SUCCESS,
        Err(stop) => {
            if !matches!(stop, Stop::Engine(EngineFault::Frame(_)) | Stop::Forgets(_)) {
                let _ = eprintln!(rt; "payd: {stop}");
                say_place(rt, stop.place());
                say_advice(rt, &stop, folder);
            }
            ExitCode::from(stop.status())
        }
    }
}

/// Returns the status of an audit. If it isn't clean, it has its line already.
// promise: statuses
fn status_of_audit(rt: &impl Eprint, ended: Result<Verdict, Stop>) -> ExitCode
    ensures { exit_status result ≡ audit_status ended.entry }
{
    match ended {
        Ok(Verdict::Clean) => ExitCode::SUCCESS,
        Ok(_) => ExitCode::from(1),
        Err(stop) => status_of(rt, Err(stop)),
    }
}

/// Returns the status of a group ledger. If there is none, a line says why.
// promise: statuses
fn status_of_book(rt: &impl Eprint, ended: Result<bool, Stop>) -> ExitCode
    ensures { exit_status result ≡ book_status ended.entry }
{
    match ended {
        Ok(true) => ExitCode::SUCCESS,
        Ok(false) => ExitCode::from(1),
        Err(stop) => status_of(rt, Err(stop)),
    }
}

/// Returns the status if the program's words aren't available, because one isn't UTF-8 or memory
/// ran out.
fn status_without_words(rt: &impl Eprint, error: &io::Error) -> ExitCode {
    if error.kind() == io::ErrorKind::InvalidData {
        say_mistake(rt, NOT_UTF8);
        ExitCode::from(2)
    } else {
        status_of(rt, Err(Stop::Engine(EngineFault::Memory)))
    }
}

/// Prints what the reader of the words answers instead of a job: help, the version, or a mistake. A
/// mistake is a mistake even if it can't be printed.
fn status_of_answer(rt: &(impl Print + Eprint + AllocGlobal), answer: &clap::Error) -> ExitCode {
    if answer.kind() == ErrorKind::OutOfMemory {
        return status_of(rt, Err(Stop::Engine(EngineFault::Memory)));
    }
    if answer.use_stderr() {
        return status_of_mistake(rt, answer);
    }
    match answer.print(rt) {
        Ok(()) => ExitCode::SUCCESS,
        Err(_) => status_of(rt, Err(Stop::Engine(EngineFault::Write))),
    }
}

/// Prints what is wrong with the words.
fn status_of_mistake(rt: &(impl Eprint + AllocGlobal), mistake: &clap::Error) -> ExitCode {
    match format!(in rt.alloc(); "{mistake}") {
        Ok(text) => {
            say_mistake(rt, text.as_str());
            ExitCode::from(2)
        }
        Err(_) => status_of(rt, Err(Stop::Engine(EngineFault::Memory))),
    }
}

/// Returns the status of a script. If it ends before its input does, it has its last line already.
/// A fault is named on standard error.
// promise: statuses
fn status_of_sim(rt: &impl Eprint, ended: Result<SimEnd, StreamFault>) -> ExitCode
    ensures { exit_status result ≡ sim_status ended }
{
    match ended {
        Ok(SimEnd::Done) => ExitCode::SUCCESS,
        Ok(SimEnd::Forged) => ExitCode::from(1),
        Ok(SimEnd::BadLine) => ExitCode::from(2),
        Ok(SimEnd::Limit) => ExitCode::from(3),
        Err(fault) => status_of(rt, Err(Stop::from(fault))),
    }
}
