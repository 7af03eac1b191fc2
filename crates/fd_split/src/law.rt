ghost use Rattle.std.specs.Prelude.{◌≡◌, ◌<◌, ◌≤◌, ◌*◌, ℕ, List, [], ◌∷◌, length, Ok, Err, All};
ghost use Rattle.fd_sections.specs.{declared.bad.Bad.TheVariants.{MultiField}, Message.{Sections}, Reading.{reading}};
ghost use Rattle.fd_split.specs.{Rounds.{HasRounds, Rounds}, Seen.{IsWhole}, Reading.{NoMessage, reading_fields, reading_rounds}};

/// What holds of every message that is split into its fields.
#[tactic(auto, using(crate::proofs::Splits::splits))]
pub fn every_split()
    // The rounds that are read are those of the message.
    ensures has { (m : List ℕ) (x : Rounds) → reading_rounds m ≡ Ok x → HasRounds m x }
    // The rounds of a message are read.
    ensures read { (m : List ℕ) (x : Rounds) → HasRounds m x → reading_rounds m ≡ Ok x }
    // A message without repeated sections is its one field.
    ensures single { (m : List ℕ) (s : Sections) → reading m ≡ Ok s → reading_fields m ≡ Ok (s ∷ []) }
    // No fault is that sections are repeated.
    ensures never { (m : List ℕ) (section : ℕ) → reading_fields m ≡ Err (NoMessage (MultiField section)) → ⊥ }
    // Each field is a message.
    ensures whole { (m : List ℕ) (fs : List Sections) → reading_fields m ≡ Ok fs → All IsWhole fs }
    // There is a field, and each takes octets of the message.
    ensures few { (m : List ℕ) (fs : List Sections) → reading_fields m ≡ Ok fs → (31 * length fs ≤ length m) × (0 < length fs) }
{}
