ghost use Rattle.std.specs.Prelude.{◌≡◌, ◌≤◌, ◌-◌, ◌++◌, [], ◌∷◌, ℕ, List, length, take, drop};
ghost use Rattle.fd_sections.specs.{declared.refusal.BadAt.{BadAt}, Joining.{EndsAs, GoesTo, IsRefusedStream, IsStream, IsWaiting, RefusesAs, SplitsOn}, Progress.{Progress}, Splitting.{answer, fed, finished, progress, start}, Frames.{FramesEnd, FramesOn, FramesTo, IsFrames, first_frame, frame_answer, frame_progress, frames, read_frames}, declared.bad.Bad.{Bad}, Message.{Sections}, Reading.{reading}, Stream.{stream, first, first_at, taken, gap, pending, beginning, after, Refuses, Takes, Bad_end}};
ghost use Rattle.fd_bytes.specs.Numbers.{octets};

/// What holds of every stream of messages, in whatever pieces it comes.
#[tactic(auto, using(crate::proofs::Pieces::streams, crate::proofs::Pending::pendings))]
pub fn every_stream()
    // Once section 0 and the octets that it says are in, of edition 2 and not too many, what comes first is what reading these octets gives.
    ensures said { (s : List ℕ) → 16 ≤ length s → octets 8 8 s ≡ 2 → octets 9 16 s ≤ length s → octets 9 16 s ≤ 134217728 → first_at s ≡ taken (reading (take (octets 9 16 s) s)) (drop (octets 9 16 s) s) }
    // A stream is what comes first in it, and then the stream of the rest.
    ensures first { (s : List ℕ) → stream s ≡ beginning stream (gap s) (first s) }
    // A message that is whole stays the next one, whatever more comes.
    ensures message { (s more : List ℕ) (m : Sections) (rest : List ℕ) → first s ≡ Takes m rest → stream (s ++ more) ≡ after (m ∷ []) (gap s) (stream (rest ++ more)) }
    // A refusal stands, whatever more comes.
    ensures refusal { (s more : List ℕ) (bad : Bad) → first s ≡ Refuses bad → stream (s ++ more) ≡ record { messages = []; skipped = gap s; end = Bad_end bad } }
    // Octets that can begin no message may be let go of.
    ensures skipped { (s more : List ℕ) → stream (s ++ more) ≡ after [] (length s - length (pending s)) (stream (pending s ++ more)) }
{}

/// What holds of every splitting of a stream, in whatever pieces it comes.
#[tactic(auto, using(crate::proofs::Joins::joinings))]
pub fn every_splitting()
    // Where nothing came nothing is given.
    ensures nothing { (p : Progress) → SplitsOn p p [] [] }
    // A piece comes, and none is given.
    ensures piece { (p : Progress) (came : List ℕ) → SplitsOn p (fed p came) came [] }
    // What `next` answers, and how far it goes.
    ensures next { (p : Progress) → GoesTo (λ m. m) p (progress p (first p.rest)) (answer p (first p.rest)) }
    // One step behind another is a step.
    ensures both { (p q r : Progress) (a b : List ℕ) (ms ns : List Sections) → SplitsOn p q a ms → SplitsOn q r b ns → SplitsOn p r (a ++ b) (ms ++ ns) }
    // What is held ends as `finish` answers.
    ensures end { (p : Progress) → IsWaiting p → EndsAs p (finished p (first p.rest)) }
    // All octets that came are a stream of the messages that were given, and end as `finish` answers.
    ensures whole { (p : Progress) (octets : List ℕ) (ms : List Sections) → SplitsOn start p octets ms → IsWaiting p → IsStream octets ms (finished p (first p.rest)) }
    // All octets that came are a stream of the messages that were given, and the one behind them is refused.
    ensures refused { (p : Progress) (octets : List ℕ) (ms : List Sections) (at : BadAt) → SplitsOn start p octets ms → RefusesAs p at → IsRefusedStream octets ms at }
{}

/// What holds of every splitting of a stream into frames, in whatever pieces it comes.
#[tactic(auto, using(crate::proofs::Frames::framings))]
pub fn every_framing()
    // Where nothing came none is given.
    ensures nothing { (p : Progress) → FramesOn p p [] [] }
    // A piece comes, and none is given.
    ensures piece { (p : Progress) (came : List ℕ) → FramesOn p (fed p came) came [] }
    // What `next_frame` answers, and how far it goes.
    ensures next { (p : Progress) → FramesTo (λ o. o) p (frame_progress p (first_frame p.rest)) (frame_answer p (first_frame p.rest)) }
    // One step behind another is a step.
    ensures both { (p q r : Progress) (a b : List ℕ) (fs gs : List (List ℕ)) → FramesOn p q a fs → FramesOn q r b gs → FramesOn p r (a ++ b) (fs ++ gs) }
    // What is held ends as `finish` answers.
    ensures end { (p : Progress) → IsWaiting p → FramesEnd p (finished p (first p.rest)) }
    // All octets that came are a stream of the frames that were given, and end as `finish` answers.
    ensures whole { (p : Progress) (octets : List ℕ) (fs : List (List ℕ)) → FramesOn start p octets fs → IsWaiting p → IsFrames octets fs (finished p (first p.rest)) }
    // The messages of a stream are those that are read of its frames, up to the first that is refused.
    ensures read { (s : List ℕ) → ((stream s).messages, (stream s).end) ≡ read_frames (frames s).end (frames s).frames }
{}
