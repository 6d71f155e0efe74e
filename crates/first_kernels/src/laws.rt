//! Laws of the launches of kernels of assignments, each as a contract. The functions themselves do nothing.

ghost use Rattle.std.specs.Prelude.{◌≡◌, ℕ, ◌<◌, List, Some};
ghost use Rattle.ocl_program.specs.Nodes.{FunctionNode};
ghost use Rattle.item_acts.specs.Launches.{start};
ghost use Rattle.item_acts.specs.Tame.{IsTame, HasFault, LaunchLeaves};
ghost use Rattle.first_kernels.specs.FirstTree.{Form};
ghost use Rattle.first_kernels.specs.First.{launch_of};
ghost use Rattle.first_kernels.specs.FirstForms.{form_from};
ghost use Rattle.first_kernels.specs.FirstSources.{source_launch};
ghost use Rattle.first_kernels.specs.FirstValues.{bytes_left, IsLaunchable};

/// Each launch of a kernel of assignments is tame, has no fault, and leaves the bytes with each item's assignments made.
pub fn launches_are_tame()
    ensures tame { (k : Form) (arguments : List ℕ) (items buffers : ℕ) (given : ℕ → ℕ → ℕ)
        → IsLaunchable k arguments items buffers → ((buffer byte : ℕ) → given buffer byte < 256)
        → IsTame (launch_of k arguments items buffers) given }
    ensures no_fault { (k : Form) (arguments : List ℕ) (items buffers : ℕ) (given : ℕ → ℕ → ℕ)
        → IsLaunchable k arguments items buffers → ((buffer byte : ℕ) → given buffer byte < 256)
        → HasFault (launch_of k arguments items buffers) (start given) → ⊥ }
    ensures leaves { (k : Form) (arguments : List ℕ) (items buffers : ℕ) (given : ℕ → ℕ → ℕ)
        → IsLaunchable k arguments items buffers → ((buffer byte : ℕ) → given buffer byte < 256)
        → LaunchLeaves (launch_of k arguments items buffers) given (bytes_left arguments items k.assignments given) }
{}

/// Each launch of a resolved kernel that has the form leaves, by the semantics of its work-items, the bytes with each item's
/// assignments made.
#[tactic(auto, using(crate::proofs::FirstSourceLaws::source_leaves))]
pub fn sources_leave()
    ensures leaves { (program : List FunctionNode) (kernel : FunctionNode) (k : Form) (arguments : List ℕ) (items buffers : ℕ) (given left : ℕ → ℕ → ℕ)
        → form_from kernel ≡ Some k → IsLaunchable k arguments items buffers → LaunchLeaves (launch_of k arguments items buffers) given left
        → LaunchLeaves (source_launch program kernel arguments items buffers) given left }
{}
