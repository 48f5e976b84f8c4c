//! A helper: code that answers as its signature promises.

ghost use Rattle.bpf_helpers.specs.Code.{IsCallable, KeepsPromise};

use crate::signature::Signature;

/// The code of a helper. It gets r1 to r5 of the caller, those beyond the signature as 0, and gives
/// what r0 becomes (RFC 9669, section 4.3.1).
pub type HelperCode = Box<dyn Fn(u64, u64, u64, u64, u64) -> u64 + Send>;

/// A number, by which programs call the helper, a signature, and code that keeps it: the code may
/// be called on all arguments of the signature, and answers as the signature promises. Contracts
/// see the number and the promise by the word `entry_of`.
pub struct Helper {
    number: u32,
    signature: Signature,
    code: HelperCode,
    ghost callable: { IsCallable signature (HelperCode.pre code) },
    ghost promised: { KeepsPromise signature (HelperCode.post code) },
}

impl Drop for Helper {
    fn drop(self) {
        let Helper {
            number: _,
            signature: _,
            code: _,
        } = self;
    }
}

impl Helper {
    ghost use Rattle.std.specs.Prelude.{◌≡◌, ℕ, [], ◌∷◌, IsTrue};
    ghost use Rattle.bpf_helpers.specs.Code.{IsCallable, KeepsPromise};
    ghost use Rattle.bpf_helpers.specs.Helpers.{code_of, entry_of};
    ghost use Rattle.bpf_helpers.specs.Promise.{is_call, is_promised};

    /// The helper of this number, with code that keeps the signature.
    pub fn new(number: u32, signature: Signature, code: HelperCode) -> Helper
        requires callable { IsCallable signature (HelperCode.pre code) }
        requires promised { KeepsPromise signature (HelperCode.post code) }
        ensures { entry_of result ≡ (number, signature) }
    {
        Helper {
            number,
            signature,
            code,
        }
    }

    /// The number by which programs call the helper.
    pub fn number(&self) -> u32
        ensures { result ≡ (entry_of self.now).0 }
    {
        self.number
    }

    /// What the helper takes, and what it may answer.
    pub fn signature(&self) -> &Signature
        ensures { result.now ≡ (entry_of self.now).1 }
    {
        &self.signature
    }

    /// The helper's answer to these arguments, those beyond its signature being 0.
    pub fn answer(&self, arguments: [u64; 5]) -> u64
        requires { IsTrue (is_call (entry_of self.now).1 arguments) }
        ensures promised { IsTrue (is_promised (entry_of self.now).1 arguments result) }
        // It is one that the helper's own code gives.
        ensures own { (a b c d e : ℕ) → arguments ≡ a ∷ b ∷ c ∷ d ∷ e ∷ []
            → HelperCode.post (code_of self.now) a b c d e result }
    {
        let [a, b, c, d, e] = arguments;
        self.answer_to(a, b, c, d, e)
    }

    fn answer_to(&self, a: u64, b: u64, c: u64, d: u64, e: u64) -> u64
        requires { IsTrue (is_call (entry_of self.now).1 (a ∷ b ∷ c ∷ d ∷ e ∷ [])) }
        ensures promised { IsTrue (is_promised (entry_of self.now).1 (a ∷ b ∷ c ∷ d ∷ e ∷ [])
            result) }
        ensures own { HelperCode.post (code_of self.now) a b c d e result }
    {
        (self.code)(a, b, c, d, e)
    }
}
