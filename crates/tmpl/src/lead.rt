ghost use Rattle.std.specs.Prelude.{◌≡◌, ◌≤◌, length, drop};
ghost use Rattle.tmpl.specs.Templates.{longest_template};
ghost use Rattle.tmpl.specs.Stretches.{EndsText};
ghost use Rattle.tmpl.specs.Leads.{IsPlainUpTo, IsLead, AreLeads, behind_lead};

use crate::stretch::{Stretch, next_stretch};
use crate::word::Word;

// The places in a text that begins with plain text and a substitution.
#[derive(Clone, Copy)]
pub(crate) struct Marks {
    // Where the substitution begins.
    pub(crate) plain: u8,
    // Its word.
    pub(crate) word: Word,
    // Where the text behind the word begins.
    pub(crate) behind: u8,
    // Where the text behind the operations begins.
    pub(crate) rest: u8,
}

// What is known of the front of a text, so that it is not read again.
#[derive(Clone, Copy)]
pub(crate) enum Lead {
    // Nothing.
    Unread,
    // The whole text is plain.
    Whole,
    // It begins with plain text and a substitution.
    Marked(Marks),
}

// What is known of a text: of its front, and of the front of what stands behind that.
#[derive(Clone, Copy)]
pub(crate) struct Leads {
    pub(crate) first: Lead,
    pub(crate) second: Lead,
}

impl Lead {
    // Reads the front of a text.
    fn of(text: &str) -> Lead
        requires { length text.now ≤ longest_template }
        ensures { IsLead text.now result }
    {
        match next_stretch(text) {
            Some((Stretch::Plain(plain), rest)) => marked_behind(text, plain.len(), rest),
            Some((Stretch::Substitution(_, _), _)) => marked_behind(text, 0, text),
            None => Lead::Whole,
        }
    }

    // The text behind that of which something is known.
    #[inline(always)]
    pub(crate) fn behind<'a>(&self, text: &'a str) -> &'a str
        requires { IsLead text.now self.now }
        ensures { result.now ≡ behind_lead self.now text.now }
    {
        match self {
            Lead::Unread => text,
            Lead::Whole => "",
            Lead::Marked(marks) => {
                let (_, rest) = text.split_at(usize::from(marks.rest));
                rest
            }
        }
    }
}

// Reads the front of a text. That of a fixed one is not asked for.
pub(crate) fn leads_of(text: &str, fixed: bool) -> Leads
    requires { length text.now ≤ longest_template }
    ensures { AreLeads text.now result }
{
    if fixed {
        return Leads {
            first: Lead::Unread,
            second: Lead::Unread,
        };
    }
    let first = Lead::of(text);
    let second = Lead::of(first.behind(text));
    Leads { first, second }
}

// Reads the front of a text that begins with so much plain text, with this text behind it.
fn marked_behind(text: &str, plain: usize, rest: &str) -> Lead
    requires short { length text.now ≤ longest_template }
    requires plain { IsPlainUpTo text.now plain }
    requires rest { rest.now ≡ drop plain text.now }
    ensures { IsLead text.now result }
{
    match next_stretch(rest) {
        Some((Stretch::Substitution(Some(word), behind), later)) => Lead::Marked(Marks {
            plain: plain as u8,
            word,
            behind: place_of(text, behind),
            rest: place_of(text, later.as_bytes()),
        }),
        Some(_) => Lead::Unread,
        None => Lead::Whole,
    }
}

// Where the text at the end of another begins.
fn place_of(text: &str, rest: &[u8]) -> u8
    requires short { length text.now ≤ longest_template }
    requires ends { EndsText text.now rest.now }
    ensures place { rest.now ≡ drop result text.now }
    ensures within { result ≤ length text.now }
{
    (text.len() - rest.len()) as u8
}
