//! What holds of any list of archives. The functions do nothing.

ghost use Rattle.std.specs.Prelude.{◌≡◌, ℕ, [], List, length, false, true};
ghost use Rattle.record_archive.specs.Archive.{Archive};
ghost use Rattle.record_choice.specs.Choices.{Question};
ghost use Rattle.record_volumes.specs.Rolling.{Capture, HasEachOnce, Row};
ghost use Rattle.record_volumes.specs.Volumes.{VolumeChoice, asks_for, choice_in, chosen_from, chosen_in, chosen_in_all, first_in, joined, placed_all, total};

/// The chosen records of all volumes are those of each volume, volume by volume.
pub fn choices_join()
    ensures { (q : Question) (c : VolumeChoice) (vs : List Archive)
        → chosen_in_all q c vs ≡ joined (λ v a. placed_all v a (chosen_in q c v a)) vs }
{}

/// How many records are chosen of all volumes is the sum of how many are chosen of each.
pub fn counts_join()
    ensures { (q : Question) (c : VolumeChoice) (vs : List Archive)
        → length (chosen_in_all q c vs) ≡ total (λ v a. length (chosen_in q c v a)) vs }
{}

/// The chosen records of a volume that is asked for are those that it answers alone, by the choice for it.
pub fn volumes_answer_alone()
    ensures { (q : Question) (c : VolumeChoice) (v : ℕ) (a : Archive) → asks_for v c ≡ true
        → chosen_in q c v a ≡ chosen_from q (choice_in v c) (first_in v c.first) a }
{}

/// A volume that is not asked for has none of the chosen records.
pub fn unasked_volumes_answer_nothing()
    ensures { (q : Question) (c : VolumeChoice) (v : ℕ) (a : Archive) → asks_for v c ≡ false
        → chosen_in q c v a ≡ [] }
{}

/// Each captured message is in exactly one volume, whatever volumes were begun between the captures.
pub fn captures_roll()
    ensures { (cs : List Capture) (row : Row) → HasEachOnce cs row }
{}
