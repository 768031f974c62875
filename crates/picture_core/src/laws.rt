//! Laws of keys, of pictures, and of the entries that are kept, for the crates above: each is
//! the contract of a function that does nothing.
ghost use Rattle.std.specs.Prelude.{◌≡◌, ℕ, ◌<◌, ◌≤◌, List, [], ◌∷◌, ◌++◌, length, false, Option};
ghost use Rattle.std.specs.Prelude.{Some};
ghost use Rattle.std.specs.Bool.{Decides};
ghost use Rattle.std.specs.Cmp.{IsTotalOrder};
ghost use Rattle.std.specs.Ordering.{is_eq};
ghost use Rattle.life_table.specs.LifeTable.{LifeTable, radar_row};
ghost use Rattle.list_members.specs.Membership.{IsIn};
ghost use Rattle.picture_core.specs.Changes.{Change, PutMonotone};
ghost use Rattle.picture_core.specs.Changes.{entries_put, kept_after, last_purge};
ghost use Rattle.picture_core.specs.Contents.{block_entries, life_of, payload_entries};
ghost use Rattle.picture_core.specs.Contents.{report_entries};
ghost use Rattle.picture_core.specs.Entry.{Entry};
ghost use Rattle.picture_core.specs.Kept.{AreMonotone, HasLife, HaveLife, IsMonotone};
ghost use Rattle.picture_core.specs.Kept.{IsRising, IsStore, kept_at, keys, live_entries};
ghost use Rattle.picture_core.specs.Kept.{put, put_all};
ghost use Rattle.picture_core.specs.Key.{Key, key_cmp, same_key};
ghost use Rattle.picture_core.specs.Picture.{keys_of, picture, shown_at};
ghost use Rattle.picture_core.specs.Shown.{AddsSame, IsShown, shown_with};
ghost use Rattle.radar_core.specs.Radar.{Block};

/// The order of keys is strict and total, and finds equal exactly the keys that are one, as
/// their test does.
#[inline]
pub fn keys_are_ordered()
    ensures total { IsTotalOrder key_cmp }
    ensures same { (a b : Key) → Decides (same_key a b) (a ≡ b) }
    ensures agrees { (a b : Key) → is_eq (key_cmp a b) ≡ same_key a b }
{}

/// The keys of entries rise, and are exactly those of the entries.
#[inline]
pub fn keys_of_entries()
    ensures rising { (entries : List Entry) → IsRising (keys_of entries) }
    ensures has { (entry : Entry) (entries : List Entry)
        → IsIn entry entries → IsIn entry.key (keys_of entries) }
    ensures only { (key : Key) (entries : List Entry) → IsIn key (keys_of entries)
        → (entry : Entry) × IsIn entry entries × (entry.key ≡ key) }
{}

/// What is shown at a key is an entry of it that lives and that none is above; it is missing
/// only where none lives.
#[inline]
pub fn shown_is_newest()
    ensures is { (entries : List Entry) (moment : ℕ) (key : Key) (entry : Entry)
        → shown_at entries moment key ≡ Some entry → IsShown entries moment key entry }
    ensures some { (entries : List Entry) (moment : ℕ) (key : Key) (entry : Entry)
        → IsIn entry entries → entry.key ≡ key → moment < entry.until
        → (shown : Entry) × (shown_at entries moment key ≡ Some shown) }
    ensures append { (one other : List Entry) (moment : ℕ) (key : Key)
        → shown_at (one ++ other) moment key
        ≡ shown_with (shown_at one moment key) (shown_at other moment key) }
{}

/// Two lists of entries that show the same go on so where what is added to both differs by
/// entries alone that are not above what is shown; lists that show the same at each key have the
/// same picture.
#[inline]
pub fn same_pictures()
    ensures step { (one other added added' : List Entry) (moment : ℕ) (key : Key)
        → shown_at one moment key ≡ shown_at other moment key
        → AddsSame moment key (shown_at one moment key) added added'
        → shown_at (one ++ added) moment key ≡ shown_at (other ++ added') moment key }
    ensures pictures { (one other : List Entry) (moment : ℕ)
        → ((key : Key) → shown_at one moment key ≡ shown_at other moment key)
        → picture one moment ≡ picture other moment }
{}

/// What is kept in place of all entries: nothing at first, and each further entry is put at the
/// place of its key.
#[inline]
pub fn store_of_entries()
    ensures empty { (now : ℕ) → IsStore now [] [] }
    ensures put { (now : ℕ) (contents kept : List Entry) (entry : Entry)
        → IsStore now contents kept → IsMonotone contents entry
        → IsStore now (contents ++ entry ∷ []) (put entry kept) }
    ensures put_all { (now : ℕ) (contents kept more : List Entry)
        → IsStore now contents kept → AreMonotone contents more
        → IsStore now (contents ++ more) (put_all more kept) }
{}

/// Of a put entry and the one that is kept under its key the newer one stays, the kept one among
/// equals; other keys keep theirs, and the keys rise.
#[inline]
pub fn put_keeps_newer()
    ensures own { (entry : Entry) (kept : List Entry) → IsRising (keys kept)
        → kept_at entry.key (put entry kept) ≡ shown_with (kept_at entry.key kept) (Some entry) }
    ensures other { (entry : Entry) (kept : List Entry) (key : Key)
        → same_key key entry.key ≡ false → kept_at key (put entry kept) ≡ kept_at key kept }
    ensures rising { (entry : Entry) (kept : List Entry)
        → IsRising (keys kept) → IsRising (keys (put entry kept)) }
{}

/// What stands for all entries goes on to do so, also when it forgets what has ended.
#[inline]
pub fn store_may_forget()
    ensures later { (now later : ℕ) (contents kept : List Entry)
        → now ≤ later → IsStore now contents kept → IsStore later contents kept }
    ensures forgets { (now gone later : ℕ) (contents kept : List Entry)
        → now ≤ later → gone ≤ later → IsStore now contents kept
        → IsStore later contents (live_entries gone kept) }
    ensures same { (kept : List Entry) (now later : ℕ)
        → now ≤ later → live_entries later (live_entries now kept) ≡ live_entries later kept }
{}

/// What is kept after puts and purges stands for all that was put, from the last purge on: what
/// lives of it is the picture.
#[inline]
pub fn store_of_changes()
    ensures { (changes : List Change) → PutMonotone changes
        → IsStore (last_purge changes) (entries_put changes) (kept_after changes) }
{}

/// Of what is kept no more entries live than live of all that was brought.
#[inline]
pub fn store_is_bounded()
    ensures { (now : ℕ) (contents kept : List Entry) → IsStore now contents kept
        → length (live_entries now kept) ≤ length (live_entries now contents) }
{}

/// Entries whose life is that of their key may be kept so, and what payloads say by a life table
/// are such entries.
#[inline]
pub fn life_of_entries()
    ensures one { (life : Key → ℕ) (contents : List Entry) (entry : Entry)
        → HaveLife life contents → HasLife life entry → IsMonotone contents entry }
    ensures all { (life : Key → ℕ) (contents more : List Entry)
        → HaveLife life contents → HaveLife life more → AreMonotone contents more }
    ensures report { (table : LifeTable) (version : ℕ) (text : List ℕ)
        → HaveLife (life_of table) (report_entries table version text) }
    ensures blocks { (table : LifeTable) (product version : ℕ) (blocks : List Block)
        → ((block : Block) → IsIn block blocks → block.0.product ≡ product)
        → HaveLife (life_of table) (block_entries version (radar_row table product) blocks) }
    ensures payload { (table : LifeTable) (product version : ℕ) (payload : List ℕ)
        → HaveLife (life_of table) (payload_entries table product version payload) }
{}
