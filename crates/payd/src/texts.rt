//! The texts about an export that words request.

ghost use Rattle.std.specs.Prelude.{◌≡◌, IfErr, IfOk, None, Some, length, map};
ghost use Rattle.std.specs.Option.{option_map};
ghost use Rattle.pay_audit.specs.Verdict.{verdict_of};
ghost use Rattle.payd.specs.Texts.{AreFindings, AreSaid, IsBookSaid, IsStatementStop, IsTextStop};
ghost use Rattle.payd.specs.Texts.{IsVerdictSaid, form_by, statement_said, verdict_line};

use crate::files::{NamedFiles, exports_of, verdict_on};
use crate::stop::Stop;
use pay_audit::{Export, Named, Verdict, audit, findings_text};
use pay_group::{BookForm, Said, book_text};
use pay_journal::{account_named, statement_text, statements_text};
use std::alloc::{AllocError, Global};

/// Returns the statement of `export` for the account that the word `account` names, or without a
/// word those of all.
// promise: statements of exports
pub(crate) fn statement_said<'a>(
    alloc: Global,
    export: &Export,
    account: Option<&'a str>,
) -> Result<Vec<u8>, Stop<'a>>
    ensures text { IfOk result (λ text. Some text.items
        ≡ statement_said export.now (option_map (λ word. word.now) account.entry)) }
    ensures stop { IfErr result
        (IsStatementStop export.now (option_map (λ word. word.now) account.entry)) }
{
    match account {
        Some(word) => {
            let Some(account) = account_named(export, word.as_bytes()) else {
                return Err(Stop::Account(word));
            };
            Ok(statement_text(alloc, export, account)?)
        }
        None => Ok(statements_text(alloc, export)?),
    }
}

/// Returns the form of a group ledger, according to two flags.
pub(crate) fn form_of<'a>(as_genesis: bool, as_export: bool) -> Result<BookForm, Stop<'a>>
    ensures form { IfOk result (λ form. form_by as_genesis as_export ≡ Some form) }
    ensures stop { IfErr result (λ stop.
        (stop ≡ Stop.Forms) × (form_by as_genesis as_export ≡ None)) }
{
    if as_genesis {
        if as_export {
            return Err(Stop::Forms);
        }
        return Ok(BookForm::NextGenesis);
    }
    if as_export {
        return Ok(BookForm::AsExport);
    }
    Ok(BookForm::Lines)
}

/// Returns what is said about the exports in the files of these `names`, in this `form`.
// promise: group's book
pub(crate) fn book_over<'a, F: NamedFiles>(
    alloc: Global,
    files: &F,
    names: &[&'a str],
    form: BookForm,
) -> Result<Said, Stop<'a>>
    ensures said { IfOk result (λ said. IsBookSaid (F.holds files.now)
        (map (λ name. name.now) names.now) form said.is_book said.text.items) }
    ensures stop { IfErr result (IsTextStop (F.holds files.now)
        (map (λ name. name.now) names.now)) }
{
    let exports = exports_of(alloc, files, names)?;
    Ok(book_text(alloc, exports.as_slice(), form)?)
}

/// The verdict on exports, and the text that says it, or that says all that is wrong with them too.
#[derive(Drop)]
pub(crate) struct Findings {
    pub(crate) verdict: Verdict,
    pub(crate) text: Vec<u8>,
}

/// Returns the verdict on the exports in the files of these `names`. Only one export at a time is
/// in memory.
// promise: findings
pub(crate) fn verdict_said<'a, F: NamedFiles>(
    alloc: Global,
    files: &F,
    names: &[&'a str],
) -> Result<Findings, Stop<'a>>
    ensures said { IfOk result (λ found. IsVerdictSaid (F.holds files.now)
        (map (λ name. name.now) names.now) found.verdict found.text.items) }
    ensures stop { IfErr result (IsTextStop (F.holds files.now)
        (map (λ name. name.now) names.now)) }
{
    let verdict = verdict_on(alloc, files, names)?;
    Ok(Findings {
        verdict,
        text: line_of(alloc, verdict)?,
    })
}

// Returns a verdict as a line.
fn line_of(alloc: Global, verdict: Verdict) -> Result<Vec<u8>, AllocError>
    ensures { IfOk result (λ line. line.items ≡ verdict_line verdict) }
{
    Ok(format!(in alloc; "{verdict}\n")?.into_bytes())
}

/// Returns the verdict on the exports in the files of these `names`, and then all that is wrong
/// with them.
// promise: findings
pub(crate) fn findings_over<'a, F: NamedFiles>(
    alloc: Global,
    files: &F,
    names: &[&'a str],
) -> Result<Findings, Stop<'a>>
    ensures said { IfOk result (λ found. AreFindings (F.holds files.now)
        (map (λ name. name.now) names.now) found.verdict found.text.items) }
    ensures stop { IfErr result (IsTextStop (F.holds files.now)
        (map (λ name. name.now) names.now)) }
{
    let exports = exports_of(alloc, files, names)?;
    Ok(findings_of(alloc, names, exports.as_slice())?)
}

fn findings_of(alloc: Global, names: &[&str], exports: &[Export]) -> Result<Findings, AllocError>
    requires { length names.now ≡ length exports.now }
    ensures judged { IfOk result (λ found. found.verdict ≡ verdict_of exports.now) }
    ensures said { IfOk result (λ found. AreSaid
        (map (λ name. name.now) names.now) exports.now found.text.items) }
{
    let named = name_exports(alloc, names, exports)?;
    let verdict = audit(alloc, exports)?;
    let mut text = line_of(alloc, verdict)?;
    text.extend_from_slice(&findings_text(alloc, named.as_slice())?)?;
    Ok(Findings { verdict, text })
}

// Returns the exports, each with the name of its file.
fn name_exports<'a>(
    alloc: Global,
    names: &[&'a str],
    exports: &'a [Export],
) -> Result<Vec<Named<'a>>, AllocError>
    requires { length names.now ≡ length exports.now }
    ensures names { IfOk result (λ named.
        map (λ n. n.name.now) named.items ≡ map (λ name. name.now) names.now) }
    ensures exports { IfOk result (λ named. map (λ n. n.export.now) named.items ≡ exports.now) }
{
    let mut named = Vec::new(alloc);
    for (place, export) in exports.iter().enumerate() {
        named.push(Named {
            name: names[place],
            export,
        })?;
    }
    Ok(named)
}
