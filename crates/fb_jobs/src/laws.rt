//! Laws of keys and reads.
ghost use Rattle.std.specs.{Prelude.{◌≡◌, ℕ, List, None, Some}, List.{Contains}, List.Sorted.{IsStrictlySortedBy}};
ghost use Rattle.fb_text.specs.Order.{name_cmp};
ghost use Rattle.fb_deploy.specs.Library.Texts.{Texts};
ghost use Rattle.fb_jobs.specs.{declared.keys.key.Key.{Key}, declared.keys.key.Kind.{Kind}, Hints.{IsNetOf}, KeyOrder.{kind_cmp}, declared.kept.hints.Hint.{Hint}};
ghost use Rattle.fb_jobs.specs.{Work.{IsFoundFor}, Kinds.{all_kinds}, Keys.{needs, scratch}, Rules.{AreLocal, unit_rules}};
ghost use Rattle.fb_jobs.specs.Reads.{PlainJob, IsLeastStale, IsRight, read_names, read_texts, stale};

/// Each kind is one of all kinds, and these are in order, each once.
pub fn kinds_in_order()
    ensures all { (kind : Kind) → Contains all_kinds kind }
    ensures order { IsStrictlySortedBy kind_cmp all_kinds }
{}

/// Texts that agree on what a key needs have the same needs and the same value for it, whatever their revisions.
pub fn locality()
    ensures { AreLocal unit_rules }
{}

/// Reads that are right for their key and current have the value of the present texts.
pub fn current_reads()
    ensures { (texts : Texts) (it : PlainJob) → IsRight it → stale texts it.reads ≡ None
        → scratch texts it.key ≡ scratch (read_texts it.reads) it.key }
{}

/// A net that was found on the way to the value of such reads is that of the present texts.
pub fn current_nets()
    ensures { (texts : Texts) (it : PlainJob) (hint : Hint) → IsRight it → stale texts it.reads ≡ None
        → IsFoundFor (read_texts it.reads) it.key hint → IsNetOf texts hint }
{}

/// What a key needs, and so what is read for it, is in order, each name once.
pub fn needs_in_order()
    ensures needs { (texts : Texts) (key : Key) → IsStrictlySortedBy name_cmp (needs texts key) }
    ensures reads { (it : PlainJob) → IsRight it
        → IsStrictlySortedBy name_cmp (read_names it.reads) }
{}

/// Of reads that are right for their key, the first that is not current is the least.
pub fn least_stale()
    ensures { (texts : Texts) (it : PlainJob) (name : List ℕ) → IsRight it
        → stale texts it.reads ≡ Some name → IsLeastStale texts it.reads name }
{}
