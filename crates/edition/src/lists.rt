// Two lists, walked side by side.
ghost use Rattle.std.specs.Prelude.{◌≡◌, Bool};
ghost use Rattle.std.specs.Iterator.{IsFinite};
ghost use Rattle.edition.specs.Same.{GoesOnBy};

// Whether there are as many later items as earlier ones, and each is the same as the one at its place.
pub fn eq_by<I: Iterator + Drop, J: Iterator + Drop, S: Fn(I::Item, J::Item) -> bool + Drop>(
    later: I,
    mut earlier: J,
    same: S,
) -> bool
where
    I::Item: Drop,
    J::Item: Drop,
    requires can { I.can_next later }
    requires finite { IsFinite (I.remaining later) }
    requires earlier_can { J.can_next earlier }
    requires callable { S.IsAlwaysCallable same }
    ensures { (test : I → J → Bool) → GoesOnBy I.next_gives J.next_gives (S.post same) later test → result ≡ test later earlier }
{
    for a in later {
        let Some(b) = earlier.next() else {
            return false;
        };
        if !same(a, b) {
            return false;
        }
    }
    earlier.next().is_none()
}
