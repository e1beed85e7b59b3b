//! The law of the front of a stream of replies, as the contract of a function that does nothing.

ghost use Rattle.std.specs.Prelude.{◌≡◌, ℕ, Bool, List};
ghost use Rattle.http_replies.specs.declared.reply_scan.ReplyScan.{ReplyScan};
ghost use Rattle.http_replies.specs.ReplyFronts.{IsReply};

/// Of a stream of replies one thing at most is scanned.
pub fn one_reply()
    ensures { (bytes : List ℕ) (ended : Bool) (r s : ReplyScan) → IsReply bytes ended r → IsReply bytes ended s → r ≡ s }
{}
