// Laws of the definitions. The functions compute nothing.

ghost use Rattle.std.specs.Prelude.{◌≡◌, ◌≤◌, length};
ghost use Rattle.key_derivation.specs.Kdf.{key_of, vector_of};
ghost use Rattle.keyring_seal.specs.Arranged.{DiffersInOneValue, IsSealable};
ghost use Rattle.keyring_seal.specs.Laws.{ArrangedAlone, ArrangedAreArrangements, ArrangedStay, FilesOpen, SealedAreFiles, SealedOpen};
ghost use Rattle.keyring_seal.specs.Whole.{HaveOneClearPart, most_bytes, sealed};

use crate::content::{Content, known_content};
use key_derivation::Derived;
use keyring_file::{a_file_that_is_spelled_so_is_read, an_area_that_is_spelled_so_is_read};

/// A law, stated by the contract: a file of a content opens to that content, and so to no other
/// one. The call does nothing.
pub fn a_file_of_a_content_opens_to_it()
    ensures { FilesOpen }
{
    a_file_that_is_spelled_so_is_read();
    an_area_that_is_spelled_so_is_read();
}

/// Two laws, stated by the contract, of every content that can be sealed, every key and every
/// vector: if the sealed file is no larger than a file may be, it is a file of the content as it is
/// arranged, and opens to that. The call does nothing.
pub fn what_is_sealed_opens()
    ensures file { SealedAreFiles }
    ensures opens { SealedOpen }
{
    a_file_of_a_content_opens_to_it();
}

/// Laws, stated by the contract: a content is arranged to the same items by rising numbers, with
/// the hashes of their attributes; there is no other such content; and arranging it again changes
/// nothing. The call does nothing.
pub fn what_is_arranged_rises()
    ensures same { ArrangedAreArrangements }
    ensures only { ArrangedAlone }
    ensures stays { ArrangedStay }
{}

/// A law, stated by the contract: if two contents are equal except for the value of one item, which
/// is as long in both, a reader of their sealed files who doesn't know the key sees files of one
/// length with one clear part. The call only reads the two.
pub fn same_shape(one: &Content, two: &Content, key: &Derived)
    requires first { IsSealable one.now }
    requires second { IsSealable two.now }
    requires alike { DiffersInOneValue one.now two.now }
    ensures as_long { length (sealed two.now (key_of key.now) (vector_of key.now))
        ≡ length (sealed one.now (key_of key.now) (vector_of key.now)) }
    ensures clear_part { length (sealed one.now (key_of key.now) (vector_of key.now)) ≤ most_bytes
        → HaveOneClearPart (sealed one.now (key_of key.now) (vector_of key.now))
        (sealed two.now (key_of key.now) (vector_of key.now)) }
{
    known_content(one);
    known_content(two);
}
