ghost use Rattle.std.specs.Prelude.{◌≡◌, ℕ, List, [], ◌∷◌};
ghost use Rattle.std.proofs.lemmas.List.Edits.{sets};
ghost use Rattle.console.specs.References.{found_words};
ghost use Rattle.console_c.specs.Reference.{referred_words, console_reference};

use console::references::memory_references;
use memory::MemoryReference;

fn write_found(found: &mut [u64; 3], next: Option<MemoryReference>)
    ensures { found.new ≡ sets found.old 0 (found_words next) }
{
    match next {
        Some(r) => {
            found[0] = 1;
            found[1] = r.name;
            found[2] = r.index;
        }
        None => {
            found[0] = 0;
            found[1] = 0;
            found[2] = 0;
        }
    }
}

pub fn console_reference(
    nodes: &[u64],
    first: u64,
    node_count: u64,
    place: &mut [u64; 1],
    found: &mut [u64; 3],
) -> u64
    ensures { referred_words result place.new found.new ≡ console_reference nodes.now first node_count place.old found.old }
{
    let old = place[0];
    let answer = memory_references(nodes, first, node_count, old as usize);
    match answer {
        Err(refusal) => refusal.number(),
        Ok(step) => {
            let next = step.found;
            place[0] = step.place as u64;
            write_found(found, next);
            0
        }
    }
}
