//! What a caller keeps of one call.
ghost use Rattle.std.specs.Prelude.{◌≡◌};
ghost use Rattle.ux_book.specs.Receipts.{IsSlip};

use crate::book_name::BookName;
use crate::trail::Place;
use std::marker::{Model, PhantomData};

/// What a call left in a history. Its type says that some legal history from the book's boot state has the entry at
/// this number, and where `try_record` gave it, that it isn't one that should have waited. Contracts see the number,
/// the entry, and whether `try_record` gave it; the entry itself takes no byte. Who asks only which calls his own
/// process made needs none: the share knows them.
pub struct Receipt<W: BookName> {
    pub(crate) number: usize,
    pub(crate) place: Place,
    pub(crate) tried: bool,
    pub(crate) of: PhantomData<W>,
}

// Written out, so that it is proved here and not in each function that drops one.
impl<W: BookName> Drop for Receipt<W> {
    fn drop(self) {
        let Receipt {
            number: _,
            place,
            tried: _,
            of: _,
        } = self;
        drop(place)
    }
}

impl<W: BookName> Model for Receipt<W> {
    ghost use Rattle.std.specs.Prelude.{◌≡◌};
    ghost use Rattle.ux_book.specs.Receipts.{Slip, IsSlip};

    ghost Value = { Slip };

    ghost view = { λ r. record { number = r.number; entry = r.place.entry; tried = r.tried } };

    ghost invariant = { λ r. IsSlip W.boot (record { number = r.number; entry = r.place.entry; tried = r.tried }) × (r.place.id ≡ W.trail) × (r.place.number ≡ r.number) };
}

impl<W: BookName> Receipt<W> {
    /// The number of the entry.
    pub fn number(&self) -> usize
        ensures { result ≡ self.now.number }
    {
        self.number
    }

    /// Does nothing when it runs. Its contract is what the receipt's type says.
    pub fn shows(&self)
        ensures { IsSlip W.boot self.now }
    {
        // A borrow of a field opens the receipt, whose invariant this is.
        let _ = &self.number;
    }
}

/// The receipt of a call.
pub(crate) fn new_receipt<W: BookName>(number: usize, place: Place, tried: bool) -> Receipt<W>
    requires slip { IsSlip W.boot (record { number = number; entry = place.entry; tried = tried }) }
    requires place { (place.id ≡ W.trail) × (place.number ≡ number) }
    ensures { result ≡ record { number = number; entry = place.entry; tried = tried } }
{
    Receipt {
        number,
        place,
        tried,
        of: PhantomData,
    }
}
