//! What words of a node and of a journal say: the pipelining depth, dials, dates.

ghost use Rattle.std.specs.Prelude.{◌≡◌, Some, IfErr, IfOk};
ghost use Rattle.std.specs.Option.{option_map};
ghost use Rattle.payd.specs.Ahead.{IsAheadStop, ahead_by, ahead_in};
ghost use Rattle.payd.specs.Dates.{IsDateSaid, IsDateStop};
ghost use Rattle.payd.specs.Dials.{IsDialsStop, dials_by, dials_in};

use crate::stop::Stop;
use jiff::Zoned;
use jiff::civil::Date;
use jiff::tz::TimeZone;
use pay_journal::date_named;
use pay_peers::{Ahead, Dials};
use pay_text::number;
use std::alloc::Global;
use std::time::Clock;

/// Returns the pipelining depth that `word` gives, or the usual one.
// promise: words and files; dials
pub(crate) fn ahead_of<'a>(word: Option<&'a str>) -> Result<Ahead, Stop<'a>>
    ensures value { IfOk result (λ ahead.
        ahead_in (option_map (λ word. word.now) word.entry) ≡ Some ahead.count) }
    ensures stop { IfErr result (IsAheadStop (option_map (λ word. word.now) word.entry)) }
{
    match word {
        None => Ok(Ahead::usual()),
        Some(word) => ahead_in(word).ok_or(Stop::Ahead(word)),
    }
}

// Returns the pipelining depth that `word` gives, if it is an allowed number.
fn ahead_in(word: &str) -> Option<Ahead>
    ensures { option_map (λ ahead. ahead.count) result ≡ ahead_by word.now }
{
    match number(word.as_bytes()) {
        None => None,
        Some(count) => Ahead::new(count),
    }
}

/// The word for connecting without end.
const ALWAYS: &str = "always";

/// Returns the dials that `word` gives, or the usual ones.
// promise: words and files; dials
pub(crate) fn dials_of<'a>(word: Option<&'a str>) -> Result<Dials, Stop<'a>>
    ensures value { IfOk result (λ dials.
        dials_in (option_map (λ word. word.now) word.entry) ≡ Some dials) }
    ensures stop { IfErr result (IsDialsStop (option_map (λ word. word.now) word.entry)) }
{
    match word {
        None => Ok(Dials::Usual),
        Some(word) => dials_in(word).ok_or(Stop::Dials(word)),
    }
}

// Returns the dials that `word` gives, if it is one of these words.
fn dials_in(word: &str) -> Option<Dials>
    ensures { result ≡ dials_by word.now }
{
    if word == ALWAYS {
        return Some(Dials::Always);
    }
    match number(word.as_bytes()) {
        None | Some(0) => None,
        Some(count) => Some(Dials::Counted(count)),
    }
}

/// Returns the date that `word` is, or today's in UTC.
// promise: statements of exports
pub(crate) fn date_of<'a>(
    alloc: Global,
    clock: &impl Clock,
    word: Option<&'a str>,
) -> Result<Date, Stop<'a>>
    ensures value { IfOk result (IsDateSaid (option_map (λ word. word.now) word.entry)) }
    ensures stop { IfErr result (IsDateStop (option_map (λ word. word.now) word.entry)) }
{
    let Some(word) = word else {
        let Ok(now) = Zoned::now(clock, TimeZone::UTC) else {
            return Err(Stop::Clock);
        };
        return Ok(now.date());
    };
    match date_named(alloc, word)? {
        Some(date) => Ok(date),
        None => Err(Stop::Date(word)),
    }
}
