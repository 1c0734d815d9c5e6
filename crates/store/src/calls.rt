// The calls of a store: what each answers, what it does to the sets, and when it refuses.
ghost use Rattle.std.specs.Prelude.{◌≡◌, ℕ, ◌<◌, Bool, true, false, not, ◌&&◌, ◌||◌, Decides};
ghost use Rattle.logic.specs.Codes.{bit};
ghost use Rattle.store.specs.Frames.{Frame, Lawful, frame_codes};
ghost use Rattle.store.specs.Calls.{one_set, two_sets, set_and_bit, set_and_code, set_and_start, Answers, SameMembers, Alters};
ghost use Rattle.store.specs.Least.{Least};

use crate::fault::Fault;

pub trait Store {
    ghost frame: { Self → Frame };

    // whether set j has the code c
    ghost sets: { Self → ℕ → ℕ → Bool };

    // The two laws are members that hold a proof.
    ghost sound: { (s : Self) → Lawful (frame s) };

    ghost coded: { (s : Self) (j c : ℕ) → sets s j c ≡ true → c < frame_codes (frame s) };

    fn actions(&self) -> usize
        ensures { result ≡ (frame self.now).actions };

    fn variables(&self) -> usize
        ensures { result ≡ (frame self.now).variables };

    fn set_count(&self) -> usize
        ensures { result ≡ (frame self.now).count };

    fn clear(&mut self, i: usize) -> Result<(), Fault>
        ensures { Alters (frame self.old) (frame self.new) (sets self.old) (sets self.new) result (one_set (frame self.old) i) i (λ _. false) };

    fn fill(&mut self, i: usize) -> Result<(), Fault>
        ensures { Alters (frame self.old) (frame self.new) (sets self.old) (sets self.new) result (one_set (frame self.old) i) i (λ c. (frame self.old).universe c) };

    fn copy(&mut self, i: usize, j: usize) -> Result<(), Fault>
        ensures { Alters (frame self.old) (frame self.new) (sets self.old) (sets self.new) result (two_sets (frame self.old) i j) i (λ c. sets self.old j c) };

    fn join(&mut self, i: usize, j: usize) -> Result<(), Fault>
        ensures { Alters (frame self.old) (frame self.new) (sets self.old) (sets self.new) result (two_sets (frame self.old) i j) i (λ c. sets self.old i c || sets self.old j c) };

    fn meet(&mut self, i: usize, j: usize) -> Result<(), Fault>
        ensures { Alters (frame self.old) (frame self.new) (sets self.old) (sets self.new) result (two_sets (frame self.old) i j) i (λ c. sets self.old i c && sets self.old j c) };

    fn flip(&mut self, i: usize) -> Result<(), Fault>
        ensures { Alters (frame self.old) (frame self.new) (sets self.old) (sets self.new) result (one_set (frame self.old) i) i (λ c. (frame self.old).universe c && not (sets self.old i c)) };

    fn pick(&mut self, i: usize, b: usize) -> Result<(), Fault>
        ensures { Alters (frame self.old) (frame self.new) (sets self.old) (sets self.new) result (set_and_bit (frame self.old) i b) i (λ c. sets self.old i c && bit c b) };

    fn same(&self, i: usize, j: usize) -> Result<bool, Fault>
        ensures { Answers result (two_sets (frame self.now) i j) (λ b. Decides b (SameMembers (sets self.now i) (sets self.now j))) };

    fn has(&self, i: usize, c: usize) -> Result<bool, Fault>
        ensures { Answers result (set_and_code (frame self.now) i c) (λ b. b ≡ sets self.now i c) };

    fn next(&self, i: usize, c: usize) -> Result<Option<usize>, Fault>
        ensures { Answers result (set_and_start (frame self.now) i c) (Least (sets self.now i) c) };
}
