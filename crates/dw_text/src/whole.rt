//! Texts that are appended whole or not at all.

ghost use Rattle.std.specs.Prelude.{◌≡◌, OnErr, OnOk, take};

/// After a refusal takes back what was appended behind the first `before` bytes, so that all of a text
/// was written or nothing.
pub fn keep_whole<T, E>(out: &mut Vec<u8>, before: usize, done: Result<T, E>) -> Result<T, E>
    ensures same { result ≡ done }
    ensures ok { OnOk result (out.new.items ≡ out.old.items) }
    ensures err { OnErr result (out.new.items ≡ take before out.old.items) }
{
    if done.is_err() {
        out.truncate(before);
    }
    done
}
