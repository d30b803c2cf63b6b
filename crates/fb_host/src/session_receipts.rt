//! The receipts of a session, which exist only in proofs.
ghost use Rattle.std.specs.Prelude.{◌≡◌, ◌∷◌, [], ◌++◌, List};
ghost use Rattle.fb_locked.specs.Seats.{ReceiptView};
ghost use base.Fml.{ftrue};

use fb_shared::Receipt;
use std::marker::Model;

/// The receipts of all calls of a session, in order. It takes no bytes itself.
#[derive(Drop)]
pub struct SessionReceipts {
    ghost all: { List ReceiptView },
}

impl Model for SessionReceipts {
    ghost also_owns = { λ _. ftrue };
}

impl SessionReceipts {
    pub(crate) fn new() -> SessionReceipts
        ensures { result.all ≡ [] }
    {
        SessionReceipts {}
    }

    #[inline(always)]
    pub(crate) fn then(&self, _receipt: &Receipt) -> SessionReceipts
        ensures { result.all ≡ self.now.all ++ _receipt.now ∷ [] }
    {
        SessionReceipts {}
    }
}
