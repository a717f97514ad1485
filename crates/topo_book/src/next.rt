//! A call that was made ready to be entered.

use std::marker::Model;
use std::sync::Arc;
use topo_core::calls::Entry;
use topo_picture::Picture;

/// The entry of a call, and the picture after it where the call is accepted.
pub struct Next {
    entry: Entry,
    picture: Option<Arc<Picture>>,
}

// Written out, so that it is proved once: a derived one is proved anew in each function that lets
// such a value go.
impl Drop for Next {
    fn drop(self) {
        let Next { entry, picture } = self;
        drop(entry);
        drop(picture);
    }
}

impl Model for Next {
    ghost use Rattle.std.specs.Prelude.{◌≡◌, is_some, IfSome, option_map};
    ghost use Rattle.std.specs.Arc.{arc_value};
    ghost use Rattle.topo_core.specs.History.{is_accepted};
    ghost use Rattle.topo_rows.specs.Shown.{IsPicture};
    ghost use Rattle.topo_book.specs.Books.{NextState, IsNext};

    ghost Value = { NextState };

    ghost view = { λ n. record { entry = n.entry; picture = option_map arc_value n.picture } };

    ghost invariant = { λ n. IsNext n.entry (option_map arc_value n.picture) };
}

impl Next {
    ghost use Rattle.std.specs.Prelude.{◌≡◌, ◌≢◌, None, Some, false, true, is_some};
    ghost use Rattle.std.specs.Prelude.{option_copied, option_map, IfSome};
    ghost use Rattle.std.specs.Arc.{arc_value};
    ghost use Rattle.topo_core.specs.History.{is_accepted};
    ghost use Rattle.topo_core.specs.declared.calls.Refusal.TheVariants.{Memory};
    ghost use Rattle.topo_core.specs.declared.calls.Reply.TheVariants.{Refused};
    ghost use Rattle.topo_rows.specs.Shown.{IsPicture};
    ghost use Rattle.topo_book.specs.Books.{IsNext, NextState};

    /// An accepted entry with the picture after it.
    pub(crate) fn accepted(entry: Entry, picture: Arc<Picture>) -> Self
        requires accepted { is_accepted entry.reply ≡ true }
        requires lawful { IsPicture (arc_value picture).limits (arc_value picture).rows }
        requires no_memory { entry.reply ≢ Refused Memory }
        ensures entry { result.entry ≡ entry }
        ensures picture { result.picture ≡ Some (arc_value picture) }
    {
        Next {
            entry,
            picture: Some(picture),
        }
    }

    /// The entry of a refused call.
    pub(crate) fn refused(entry: Entry) -> Self
        requires refused { is_accepted entry.reply ≡ false }
        requires no_memory { entry.reply ≢ Refused Memory }
        ensures entry { result.entry ≡ entry }
        ensures picture { result.picture ≡ None }
    {
        Next {
            entry,
            picture: None,
        }
    }

    /// The entry that comes next.
    pub fn entry(&self) -> &Entry
        ensures entry { result.now ≡ self.now.entry }
        ensures no_memory { self.now.entry.reply ≢ Refused Memory }
    {
        &self.entry
    }

    /// The picture after the call, and none where it is refused.
    pub fn picture(&self) -> Option<&Picture>
        ensures picture { option_copied result ≡ self.now.picture }
        ensures accepted { is_some result ≡ is_accepted self.now.entry.reply }
        ensures lawful { IfSome result (λ p. IsPicture p.now.limits p.now.rows) }
    {
        match &self.picture {
            Some(picture) => Some(picture),
            None => None,
        }
    }

    /// The picture after the entry, of which a reader may take a share: it stays as it is for as
    /// long as the share is held, whatever is entered later.
    pub fn shared(&self) -> Option<&Arc<Picture>>
        ensures picture { option_map arc_value (option_copied result) ≡ self.now.picture }
        ensures accepted { is_some result ≡ is_accepted self.now.entry.reply }
        ensures lawful { IfSome result
            (λ p. IsPicture (arc_value p.now).limits (arc_value p.now).rows) }
    {
        self.picture.as_ref()
    }

    /// The entry, and the picture after it.
    pub(crate) fn into_parts(self) -> (Entry, Option<Arc<Picture>>)
        ensures entry { result.0 ≡ self.entry }
        ensures picture { option_map arc_value result.1 ≡ self.picture }
        ensures next { IsNext self.entry self.picture }
    {
        let Next { entry, picture } = self;
        (entry, picture)
    }
}
