ghost use Rattle.std.specs.Prelude.{◌≡◌};
ghost use Rattle.tmpl.specs.Templates.{template_of, is_fixed, is_single, uses_index};
ghost use Rattle.tmpl.specs.Rendering.{fields_of, rendered, rendered_number, given};

use crate::Spot;
use crate::lead::{Leads, leads_of};
use crate::render::{given, named, number_in, push_text_of};
use crate::stretch::{all_right, is_fixed, is_single, uses_index};
use arrayvec::ArrayString;
use bmc_base::Name;
use std::alloc::Global;
use std::marker::Model;
use thiserror::Error;

// The most bytes of a template.
const LONGEST_TEMPLATE: usize = 128;

/// Why a text is no template.
#[derive(Clone, Copy, Debug, PartialEq, Eq, Error)]
pub enum TmplFault {
    /// It is empty or longer than 128 bytes, a word in it is unknown, or something is divided by 0.
    #[error("the text is no template")]
    TemplateSyntax,
    /// There was no memory. A template lies in the value itself, so this does not come.
    #[error("out of memory")]
    OutOfMemory,
}

/// What a template is rendered as.
#[derive(Drop)]
pub enum Rendered {
    /// This name.
    Given(Name),
    /// Nothing.
    Skip,
}

/// A template of a name or a number: plain text with substitutions. It lies in the value itself.
#[derive(Drop)]
pub struct Template {
    text: ArrayString<LONGEST_TEMPLATE>,
    fixed: bool,
    // What is known of its front; nothing of a fixed one.
    leads: Leads,
}

impl Model for Template {
    ghost use Rattle.std.specs.Prelude.{ℕ, List, ◌≡◌, true};
    ghost use Rattle.tmpl.specs.Templates.{is_template, is_fixed};
    ghost use Rattle.tmpl.specs.Leads.{AreLeads};

    ghost Value = { List ℕ };

    ghost view = { λ t. t.text.bytes };

    ghost invariant = { λ t. (is_template t.text.bytes ≡ true)
        × (t.fixed ≡ is_fixed t.text.bytes)
        × AreLeads t.text.bytes t.leads };
}

impl Template {
    /// Reads a template: a text of 1 to 128 bytes. A `$` in front of a letter or `_` begins a
    /// substitution. Its word is the longest run of letters, digits and `_`, and has to be `bus`,
    /// `address`, `index`, `BUS`, `ADDRESS` or the name of a field. Operations may follow, each a
    /// space, one of `+ - * / %`, a space and 1 to 5 digits; `/` and `%` do not have the number 0.
    /// All else is plain text. `TemplateSyntax` comes exactly where a text is no template. It takes
    /// no memory.
    pub fn parse(alloc: Global, text: &str) -> Result<Template, TmplFault>
        ensures { result ≡ template_of text.now }
    {
        let _ = alloc;
        if text.is_empty() {
            return Err(TmplFault::TemplateSyntax);
        }
        let fixed = is_fixed(text);
        if !all_right(text, fixed) {
            return Err(TmplFault::TemplateSyntax);
        }
        let mut held = ArrayString::new();
        match held.try_push_str(text) {
            Ok(()) => Ok(Template {
                text: held,
                fixed,
                leads: leads_of(text, fixed),
            }),
            Err(_) => Err(TmplFault::TemplateSyntax),
        }
    }

    /// Renders the template as a name: a field becomes its text, and any other word its decimal.
    /// Where operations follow, they are done from left to right, and a field has to be a number of
    /// 1 to 9 digits. `Skip` comes exactly where a place, a record or a field is not there, a field
    /// is no such number, a value leaves 0 to 4,294,967,295 at an operation, or the whole is no
    /// name of 1 to 64 bytes. It takes no memory.
    pub fn render(&self, spot: &Spot<'_>) -> Rendered
        ensures { result ≡ given
            (rendered spot.now.place (fields_of spot.now.fru) spot.now.index self.now) }
    {
        if self.fixed {
            return named(self.text.as_str());
        }
        let mut out = ArrayString::new();
        match push_text_of(&mut out, self.text.as_str(), &self.leads, spot) {
            Some(()) => given(out),
            None => Rendered::Skip,
        }
    }

    /// Renders the template as a number of 1 to 10 digits that is at most `max`; none where it is
    /// rendered as anything else. It takes no memory.
    pub fn render_number(&self, spot: &Spot<'_>, max: u32) -> Option<u32>
        ensures { result ≡ rendered_number spot.now.place (fields_of spot.now.fru) spot.now.index
            self.now max }
    {
        if self.fixed {
            return number_in(self.text.as_str(), max);
        }
        let mut out = ArrayString::new();
        push_text_of(&mut out, self.text.as_str(), &self.leads, spot)?;
        number_in(out.as_str(), max)
    }

    /// Whether it has no substitution, so that it is rendered the same everywhere.
    pub fn is_fixed(&self) -> bool
        ensures { result ≡ is_fixed self.now }
    {
        self.fixed
    }

    /// Whether it is one substitution with its operations, and nothing else.
    pub fn is_single(&self) -> bool
        ensures { result ≡ is_single self.now }
    {
        is_single(self.text.as_str())
    }

    /// Whether the word of one of its substitutions is `index`.
    pub fn uses_index(&self) -> bool
        ensures { result ≡ uses_index self.now }
    {
        uses_index(self.text.as_str())
    }
}
