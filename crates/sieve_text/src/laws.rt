//! Laws of the tokens of a script. The functions do nothing: their contracts are the laws.

ghost use Rattle.std.specs.Prelude.{◌≡◌, ◌⊎◌, ◌↔◌, ℕ, List};
ghost use Rattle.sieve_syntax.specs.declared.token.Token.{Token};
ghost use Rattle.sieve_text.specs.declared.fault.ScanRefusal.{ScanRefusal};
ghost use Rattle.sieve_text.specs.declared.fault.ScanFault.TheVariants.{Refused};
ghost use Rattle.sieve_text.specs.FaultGrammar.{IsText, IsRefusedAt};
ghost use Rattle.sieve_text.specs.TokenGrammar.{IsCut};
ghost use Rattle.sieve_text.specs.Tokens.{IsScan, IsFaulty, StandsIn};

/// A script has at most one list of tokens.
pub fn one_scan()
    ensures { (script : List ℕ) (ts us : List Token) → IsScan script ts → IsScan script us
        → ts ≡ us }
{}

/// A script with tokens has no refusal, and none has two refusals.
pub fn one_verdict()
    ensures tokens { (script : List ℕ) (ts : List Token) (refusal : ScanRefusal) → IsScan script ts
        → IsFaulty script refusal → ⊥ }
    ensures refusal { (script : List ℕ) (a b : ScanRefusal) → IsFaulty script a → IsFaulty script b
        → a ≡ b }
{}

/// Every text is a sequence of tokens or has a refusal.
pub fn some_verdict()
    ensures { (script : List ℕ) → ((ts : List Token) × IsScan script ts) ⊎
        ((refusal : ScanRefusal) × IsFaulty script refusal) }
{}

/// The tokens of a script are exactly those into which it can be cut, if it is a text. Gaps and tokens alternate, and
/// each token is the longest that fits the grammar of RFC 5228, section 8.1, and the limits.
pub fn cut()
    ensures { (script : List ℕ) (ts : List Token) → IsScan script ts
        ↔ (IsText script × IsCut 0 script ts) }
{}

/// A refusal is at a place exactly where the grammar puts it. Either the script is too long (15), not UTF-8 (10) or has
/// a stray octet (11). Or, after the first tokens and a gap, the rest begins with no token, for the reason that the
/// refusal gives.
pub fn refused_place()
    ensures at { (script : List ℕ) (refusal : ScanRefusal) (place : ℕ)
        → StandsIn script (Refused refusal place) ↔ IsRefusedAt script refusal place }
    ensures some { (script : List ℕ) (refusal : ScanRefusal) → IsFaulty script refusal ↔
        ((place : ℕ) × IsRefusedAt script refusal place) }
{}
