//! A law of the proofs.
ghost use Rattle.std.specs.Prelude.{◌≡◌, ◌≢◌, List, length, ℕ};
ghost use Rattle.fb_secret.specs.Exchange.{client_message, host_message};

/// What a host proves is never what a client proves, so a proof that is sent back proves nothing; and the proof for two challenges is for no others.
#[tactic(auto, using(crate::proofs::LineLemmas::same_message))]
pub fn proofs_are_for_one_exchange()
    ensures roles { (host client again later : List ℕ)
        → client_message host client ≢ host_message again later }
    ensures challenges { (host client again later : List ℕ)
        → length host ≡ 64 → length again ≡ 64
        → client_message host client ≡ client_message again later
        → (host ≡ again) × (client ≡ later) }
{}
