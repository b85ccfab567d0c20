// The policies that a caller hands over.
ghost use Rattle.std.specs.Prelude.{◌≡◌, map};
ghost use Rattle.std.specs.Option.{option_map};
ghost use Rattle.merge_policy.specs.Boxes.{first_with, without_first};

use crate::MergePolicy;

// The label of the policy in a box.
fn label_in(policy: &Box<dyn MergePolicy>) -> u32
    ensures { result ≡ (seen policy.now).label }
{
    policy.label()
}

/// Takes out the first box with this label, and none where no box has it. The others keep their order. It costs a look at each box.
pub fn take_first(
    policies: &mut Vec<Box<dyn MergePolicy>>,
    label: u32,
) -> Option<Box<dyn MergePolicy>>
    ensures taken { option_map (λ policy. seen policy) result ≡ first_with label (map (λ policy. seen policy) policies.old.items) }
    ensures others { map (λ policy. seen policy) policies.new.items ≡ without_first label (map (λ policy. seen policy) policies.old.items) }
{
    for place in 0..policies.len() {
        if label_in(&policies[place]) == label {
            return Some(policies.remove(place));
        }
    }
    None
}
