//! Rules as text.
ghost use Rattle.std.specs.Prelude.{◌≡◌, ◌+◌, ◌≤◌, ◌++◌, length};
ghost use Rattle.x25_judge.specs.RuleText.{number_in, rule_text, words_of};

use crate::rule::Rule;
use x25_text::{ROOM, Text};

/// The most characters of the text of a rule.
pub(crate) const MOST_RULE: usize = 100;

/// What a rule says, but for its number.
fn words(rule: Rule) -> &'static [u8]
    ensures words { result.now ≡ words_of rule }
    ensures few { length result.now ≤ 90 }
{
    match rule {
        Rule::NoFrame => b"no frame of LAPB has these octets (2.3.5.4)",
        Rule::UaUnasked => b"UA answers SABM or DISC alone (2.3.4.7)",
        Rule::NotUp => b"no I frame, RR, RNR or REJ while the link isn't up (2.4.4.2)",
        Rule::NoPoll => b"F=1 answers a command with P=1 alone (2.4.3)",
        Rule::Unsent { .. } => b"N(R) acknowledges what was never sent (2.3.4.9): at most ",
        Rule::Falls { .. } => b"N(R) falls (2.3.4.9): at least ",
        Rule::RejectAgain => b"REJ comes once for a gap (2.4.5.4)",
        Rule::OverWindow { .. } => b"more I frames are unacknowledged than k (2.4.8.6): at most ",
        Rule::Skips { .. } => b"N(S) skips (2.4.5.1): it should be ",
        Rule::Repeats { .. } => b"N(S) repeats without REJ or a poll (2.4.5.9): it should be ",
        Rule::Differs => b"an I frame sent again has other octets (2.4.5.9)",
        Rule::Packet { rule } => rule.words(),
    }
}

/// The number that would have been right.
fn number(rule: Rule) -> Option<u16>
    ensures { result ≡ number_in rule }
{
    match rule {
        Rule::Unsent { most } => Some(u16::from(most)),
        Rule::Falls { least } => Some(u16::from(least)),
        Rule::OverWindow { window } => Some(u16::from(window)),
        Rule::Skips { next } | Rule::Repeats { next } => Some(u16::from(next)),
        Rule::Packet { rule } => rule.number(),
        _ => None,
    }
}

/// Appends what a rule says.
pub(crate) fn push_rule(rule: Rule, text: &mut Text)
    requires { length text.old + MOST_RULE ≤ ROOM }
    ensures text { text.new ≡ text.old ++ rule_text rule }
    ensures size { length text.new ≤ length text.old + MOST_RULE }
{
    match number(rule) {
        Some(number) => text.push_number(words(rule), number),
        None => text.push(words(rule)),
    }
}
