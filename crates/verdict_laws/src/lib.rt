//! Laws of the program's tests: each is the contract of a function that does nothing but name the laws that it rests on.
#![tactic(auto)]

ghost use Rattle.std.specs.Prelude.{◌≡◌, ◌↔◌, ℕ, ◌<◌, ◌≤◌};
ghost use Rattle.guard_spec.specs.Plain.{IsPlain};
ghost use Rattle.guard_spec.specs.Words.{Layout, Settings};
ghost use Rattle.netlist_spec.specs.Netlist.{File, Model};
ghost use Rattle.program_spec.specs.Refusals.{guard_too_large};
ghost use Rattle.program_spec.specs.Steps.{Nothing, smallness};
ghost use Rattle.program_spec.specs.Walk.{ComesTo, Contents, IsTest, Verdict, end, passes, refused, test};

use size_laws::sizes_stand_alone;

/// The step on the size of a guard passes exactly where the size is at most 1,000,000, and it has one answer.
pub fn sizes_decide_the_step()
    ensures small { (file : File) (s : Settings) (m : Model) (l : Layout) (n : ℕ) (contents : Contents) (v : Verdict)
        → IsPlain file s.library m s.code s.mode s.bound l n → n ≤ 1000000
        → ComesTo (test Nothing (smallness file s m l) (λ small. end)) contents v ↔ (v ≡ passes) }
    ensures large { (file : File) (s : Settings) (m : Model) (l : Layout) (n : ℕ) (contents : Contents) (v : Verdict)
        → IsPlain file s.library m s.code s.mode s.bound l n → 1000000 < n
        → ComesTo (test Nothing (smallness file s m l) (λ small. end)) contents v ↔ (v ≡ refused guard_too_large) }
    ensures one { (file : File) (s : Settings) (m : Model) (l : Layout) → IsTest Nothing (smallness file s m l) }
{
    // What the law says is known behind its call.
    sizes_stand_alone();
}
