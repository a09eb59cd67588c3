//! The laws of what a session writes. Each is proved, and computes nothing.

ghost use Rattle.std.specs.Prelude.{◌≡◌, ℕ, List};
ghost use Rattle.kw_bits.specs.declared.host.HostSpec.{HostSpec};
ghost use Rattle.stream_run.specs.Replies.{Answers, Reply};

/// Bytes have one reply at most, where the same host functions are handed in.
pub fn one_reply()
    ensures { (hosts : List HostSpec) (bytes : List ℕ) (a b : Reply) →
        Answers hosts bytes a → Answers hosts bytes b → a ≡ b }
{}

/// Bytes have a reply.
pub fn some_reply()
    ensures { (hosts : List HostSpec) (bytes : List ℕ) → (reply : Reply) × Answers hosts bytes reply }
{}
