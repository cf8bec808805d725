// A type error's six words.
ghost use Rattle.std.specs.Prelude.{◌≡◌, List, [], ◌∷◌};
ghost use Rattle.std.proofs.lemmas.List.Edits.{sets};
ghost use Rattle.type_check.specs.Check.{error_words};

use type_rules::error::TypeError;

pub fn write_error(error: &mut [u64; 6], e: TypeError)
    ensures { error.new ≡ sets error.old 0 (error_words e) }
{
    error[0] = e.kind;
    error[1] = e.row;
    error[2] = e.spot;
    error[3] = e.src_spot;
    error[4] = e.first_code;
    error[5] = e.second_code;
}
