//! Texts as contracts see them: lists of bytes.
ghost use Rattle.std.specs.Prelude.{◌≡◌, IfOk};
ghost use Rattle.std.specs.String.{string_bytes};
ghost use Rattle.values.specs.Memory.{OnlyMemory};

use crate::refusal::Mem;
use arrayvec::ArrayString;
use std::alloc::{AllocError, Global};
use std::cmp::Ordering;
use std::marker::Model;

/// How many bytes of a text are kept in the value itself.
const INSIDE: usize = 16;

/// Where the bytes of a text are: short ones need no allocation.
#[derive(Debug, Drop)]
enum Text {
    Short(ArrayString<INSIDE>),
    Long(String),
}

/// A text, which contracts see as its bytes.
#[derive(Debug, Drop)]
pub struct Chars {
    text: Text,
}

impl Model for Chars {
    ghost use Rattle.std.specs.Prelude.{List, ℕ};
    ghost use Rattle.values.specs.Chars.{bytes_of};

    ghost Value = { List ℕ };

    ghost view = { λ c. bytes_of c.text };
}

impl Chars {
    /// Makes the characters of a text; one of over 16 bytes is not copied.
    pub fn new(text: String) -> Chars
        ensures { result ≡ string_bytes text }
    {
        let text = match ArrayString::from(text.as_str()) {
            Ok(short) => Text::Short(short),
            Err(_) => Text::Long(text),
        };
        Chars { text }
    }

    /// Copies a text.
    pub fn copy_of(alloc: Global, text: &str) -> Mem<Chars>
        ensures ok { IfOk result (λ c. c ≡ text.now) }
        ensures err { OnlyMemory result }
    {
        let text = match ArrayString::from(text) {
            Ok(short) => Text::Short(short),
            Err(_) => Text::Long(String::from_str(alloc, text)?),
        };
        Ok(Chars { text })
    }

    /// Returns the text.
    pub fn text(&self) -> &str
        ensures { result.now ≡ self.now }
    {
        match &self.text {
            Text::Short(short) => short.as_str(),
            Text::Long(long) => long.as_str(),
        }
    }
}

impl Clone for Chars {
    ghost use Rattle.std.specs.Prelude.{◌≡◌};

    ghost is_clone = { λ x y. y ≡ x };

    fn clone(&self) -> Result<Chars, AllocError> {
        let text = match &self.text {
            Text::Short(short) => Text::Short(*short),
            Text::Long(long) => Text::Long(long.clone()?),
        };
        Ok(Chars { text })
    }
}

impl PartialEq for Chars {
    ghost use Rattle.std.specs.Prelude.{nat_eq};
    ghost use Rattle.std.specs.Cmp.{partial_equiv_from_equiv};
    ghost use Rattle.std.specs.Cmp.Lexicographic.{pointwise, nat_list_eq_equiv};

    ghost eq = { pointwise nat_eq };

    ghost laws = { partial_equiv_from_equiv nat_list_eq_equiv };

    fn eq(&self, other: &Chars) -> bool {
        self.text() == other.text()
    }
}

impl Eq for Chars {
    ghost use Rattle.std.specs.Cmp.Lexicographic.{nat_list_eq_equiv};

    ghost laws = { nat_list_eq_equiv };
}

impl PartialOrd for Chars {
    ghost use Rattle.std.specs.Prelude.{Some};
    ghost use Rattle.std.specs.Ordering.{nat_cmp};
    ghost use Rattle.std.specs.Cmp.Lexicographic.{slice_cmp, texts_po};

    ghost partial_cmp = { λ x y. Some (slice_cmp nat_cmp x y) };

    ghost laws = { texts_po };

    fn partial_cmp(&self, other: &Chars) -> Option<Ordering> {
        Some(self.cmp(other))
    }
}

impl Ord for Chars {
    ghost use Rattle.std.specs.Prelude.{refl};
    ghost use Rattle.std.specs.Ordering.{nat_cmp};
    ghost use Rattle.std.specs.Cmp.Lexicographic.{slice_cmp, nat_list_cmp_total, texts_ties};

    ghost cmp = { slice_cmp nat_cmp };

    ghost total = { nat_list_cmp_total };

    ghost matches_partial_cmp = { λ _ _. refl };

    ghost matches_eq = { texts_ties };

    fn cmp(&self, other: &Chars) -> Ordering {
        self.text().cmp(other.text())
    }
}
