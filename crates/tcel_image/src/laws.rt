ghost use Rattle.std.specs.Prelude.{◌≡◌, length, Ok, Err};
ghost use Rattle.tcel_image.specs.Spelling.{spelling};
ghost use Rattle.tcel_image.specs.Reading.{reading};
ghost use Rattle.tcel_image.specs.Examples.{echo, dispatched_echo};
ghost use Rattle.tcel_image.specs.SpellingExample.{echo_bytes, with_dispatch, with_version};
ghost use Rattle.tcel_image.specs.declared.fault.ImageFail.TheVariants.{BadField};
ghost use Rattle.tcel_image.specs.Laws.{IsTold, IsPrefixFree, IsReadAgain, IsReadOnlySo, IsExtraBehind, IsShortFront};

/// Laws of the spelling of images, for proofs. Each image in range has one spelling and no other image
/// has it, none is a proper front of another, a spelling is read as its image, nothing else is read,
/// bytes behind a spelling are extra, and a front of it is short.
pub fn spelling_laws()
    ensures told { IsTold }
    ensures prefix_free { IsPrefixFree }
    ensures read_again { IsReadAgain }
    ensures read_only_so { IsReadOnlySo }
    ensures extra_behind { IsExtraBehind }
    ensures short_front { IsShortFront }
{}

/// The spelling of one small image, byte by byte, and what a cost of dispatch adds to it.
pub fn spelling_example()
    ensures size { length echo_bytes ≡ 256 }
    ensures spelled { spelling echo ≡ echo_bytes }
    ensures read { reading echo_bytes ≡ Ok echo }
    ensures dispatched { spelling dispatched_echo ≡ with_dispatch 3 echo_bytes }
    ensures dispatched_read { reading (with_dispatch 3 echo_bytes) ≡ Ok dispatched_echo }
    ensures no_dispatch { reading (with_dispatch 0 echo_bytes) ≡ Err (BadField 72) }
    ensures second_version { reading (with_version 2 echo_bytes) ≡ Err (BadField 72) }
{}
