//! How the patterns of a tracker are compiled.
ghost use Rattle.std.specs.Prelude.{◌≡◌, ◌↔◌, IfErr, IfOk, IsErrOf, map};
ghost use Rattle.regex.specs.Failures.{IsPattern};
ghost use Rattle.regex.specs.Patterns.{default_config};
ghost use Rattle.regex.specs.Strings.{regex_source};
ghost use Rattle.regex.specs.declared.error.Error.TheVariants.{OutOfMemory};
ghost use Rattle.td_query.specs.Sources.{AreDefault, ArePatterns, IsDefault, IsRefusedForCause};
ghost use Rattle.td_query.specs.Sources.{source_of, unescaped};
ghost use Rattle.td_query.specs.TrackerFaults.{IsPatternFault};
ghost use Rattle.td_query.specs.Views.{raw_of};

use crate::read_fault::RawPattern;
use crate::tracker_fault::TrackerFault;
use crate::unescape::source;
use regex::{Error, Regex};
use std::alloc::Global;

// Why a text is no pattern.
#[derive(Clone, Copy, Debug)]
enum PatternFault {
    BadPattern,
    NoMemory,
}

// The fault for an error of `regex`: `NoMemory` if and only if memory ran out.
fn fault_of(error: Error) -> PatternFault
    ensures memory { (result ≡ PatternFault.NoMemory) ↔ (error ≡ OutOfMemory) }
{
    match error {
        Error::OutOfMemory => PatternFault::NoMemory,
        _ => PatternFault::BadPattern,
    }
}

// The pattern that a text spells.
fn pattern_of(alloc: Global, text: &str) -> Result<Regex, PatternFault>
    ensures source { IfOk result (λ r. regex_source r ≡ text.now) }
    ensures read { IfOk result (λ r. IsPattern default_config text.now) }
    ensures default { IfOk result IsDefault }
    ensures bad { IsErrOf result PatternFault.BadPattern → IsRefusedForCause text.now }
{
    match Regex::new(alloc, text) {
        Ok(pattern) => Ok(pattern),
        Err(error) => Err(fault_of(error)),
    }
}

// The pattern between two slashes.
fn compiled(alloc: Global, raw: &str) -> Result<Regex, PatternFault>
    ensures source { IfOk result (λ r. regex_source r ≡ unescaped raw.now) }
    ensures read { IfOk result (λ r. IsPattern default_config (unescaped raw.now)) }
    ensures default { IfOk result IsDefault }
    ensures bad { IsErrOf result PatternFault.BadPattern → IsRefusedForCause (unescaped raw.now) }
{
    match source(alloc, raw) {
        Ok(text) => pattern_of(alloc, text.as_str()),
        Err(_) => Err(PatternFault::NoMemory),
    }
}

/// The patterns of a text of `size` bytes.
pub fn compile(alloc: Global, size: usize, log: &[RawPattern]) -> Result<Vec<Regex>, TrackerFault>
    ensures sources { IfOk result
        (λ ps. map regex_source ps.items ≡ map source_of (map raw_of log.now)) }
    ensures read { IfOk result (λ ps. ArePatterns (map raw_of log.now)) }
    ensures compiled { IfOk result (λ ps. AreDefault ps.items) }
    ensures refused { IfErr result (IsPatternFault size (map raw_of log.now)) }
{
    let mut patterns = Vec::new(alloc);
    for raw in log {
        let pattern = match compiled(alloc, raw.raw) {
            Ok(pattern) => pattern,
            Err(PatternFault::NoMemory) => return Err(TrackerFault::NoMemory),
            Err(PatternFault::BadPattern) => {
                return Err(TrackerFault::BadPattern(size.saturating_sub(raw.left)));
            }
        };
        match patterns.push(pattern) {
            Ok(()) => {}
            Err(_) => return Err(TrackerFault::NoMemory),
        }
    }
    Ok(patterns)
}
