// What the definitions of the two texts say together. Each law is the contract of a function that
// does nothing.
ghost use Rattle.std.specs.Prelude.{◌≡◌, ℕ, ◌<◌, ◌^◌, ◌++◌, List, length, Ok};
ghost use Rattle.std.specs.List.{AllByRecursion};
ghost use Rattle.keyring_text.specs.Fields.{IsBytes};
ghost use Rattle.keyring_file.specs.declared.area.FullItem.{FullItem};
ghost use Rattle.keyring_file.specs.AreaText.{AreaText};
ghost use Rattle.keyring_file.specs.Clear.{ClearPart};
ghost use Rattle.keyring_file.specs.ClearText.{ClearText, IsAreaLength};
ghost use Rattle.keyring_file.specs.Canonical.{clear_text, area_text};
ghost use Rattle.keyring_file.specs.Short.{IsShortClear, IsShortItem};
ghost use Rattle.keyring_file.specs.Known.{IsKnownItem};
ghost use Rattle.keyring_file.specs.Sound.{IsSoundClear};
ghost use Rattle.keyring_file.specs.FileReading.{clear_read, area_read};
ghost use Rattle.keyring_file.specs.Limits.{file_limit};
ghost use Rattle.keyring_file.specs.declared.limits.TheConstants.{FILE_LIMIT};

/// The limit for callers is the one of the definitions.
pub fn a_file_has_67_108_864_bytes_at_most()
    ensures { FILE_LIMIT ≡ file_limit }
{}

/// If reading a file succeeds, the file is a text of what was read.
pub fn a_file_that_is_read_is_spelled_so()
    ensures { (file area : List ℕ) (clear : ClearPart) → IsBytes file
        → clear_read file ≡ Ok (clear, area) → ClearText file clear area }
{}

/// A text of a clear part and an area is read as these two.
pub fn a_file_that_is_spelled_so_is_read()
    ensures { (file area : List ℕ) (clear : ClearPart) → ClearText file clear area
        → clear_read file ≡ Ok (clear, area) }
{}

/// If reading an area succeeds, the area is a text of what was read, which is as many items as were
/// asked for.
pub fn an_area_that_is_read_is_spelled_so()
    ensures { (area : List ℕ) (count : ℕ) (items : List FullItem) → IsBytes area
        → area_read count area ≡ Ok items → AreaText area items × (length items ≡ count) }
{}

/// A text of items is read as those items.
pub fn an_area_that_is_spelled_so_is_read()
    ensures { (area : List ℕ) (items : List FullItem) → AreaText area items
        → area_read (length items) area ≡ Ok items }
{}

/// The canonical text of a clear part, followed by any area of a possible length, is a text of the
/// two.
pub fn a_canonical_clear_part_is_spelled_so()
    ensures { (clear : ClearPart) (area : List ℕ) → IsSoundClear clear → IsShortClear clear
        → IsAreaLength (length area) → length area < 2 ^ 32
        → ClearText (clear_text clear (length area) ++ area) clear area }
{}

/// The canonical area of items is a text of them, and consists of bytes.
pub fn a_canonical_area_is_spelled_so()
    ensures text { (items : List FullItem) → AllByRecursion IsKnownItem items
        → AllByRecursion IsShortItem items → AreaText (area_text items) items }
    ensures bytes { (items : List FullItem) → AllByRecursion IsKnownItem items
        → IsBytes (area_text items) }
{}
