ghost use Rattle.std.specs.Prelude.{◌≡◌, ◌+◌, ◌≤◌, ℕ, Bool, IsTrue, List, [], ◌++◌, length};
ghost use Rattle.audit_disk_model.specs.Image.{Sector, Image, with_sectors, DiffersOnlyIn};
ghost use Rattle.audit_disk_model.specs.Calls.{Continues};
ghost use Rattle.audit_disk_model.specs.Moments.{AtEachMoment, IsSettled, IsAfterCrash};
ghost use Rattle.audit_disk_model.specs.Window.{DiffersFromNow, ChangesOnly, WritesSectors};

use crate::Sectors;

/// Adjacent runs of written sectors make one run, and an empty run changes nothing. If two calls in a row change only
/// a range of sectors and a part of it, both together change only that range. The function does nothing: its contract
/// is the law.
pub fn rows_join<D: Sectors>()
    ensures image { (image : Image) (at : ℕ) (one two : List Sector) → at + length one ≤ length image
        → with_sectors (with_sectors image at one) (at + length one) two ≡ with_sectors image at (one ++ two) }
    ensures none { (device : D) (at : ℕ) → WritesSectors (D.view device) (D.view device) at [] }
    ensures written { (old mid new : D) (at : ℕ) (one two : List Sector) → Continues (D.view old) (D.view mid)
        → WritesSectors (D.view old) (D.view mid) at one
        → WritesSectors (D.view mid) (D.view new) (at + length one) two
        → at + length one ≤ (D.view old).size → WritesSectors (D.view old) (D.view new) at (one ++ two) }
    ensures changed { (old mid new : D) (at count place some : ℕ) → Continues (D.view old) (D.view mid)
        → ChangesOnly (D.view old) (D.view mid) at count → ChangesOnly (D.view mid) (D.view new) place some
        → at ≤ place → place + some ≤ at + count → ChangesOnly (D.view old) (D.view new) at count }
{}

/// What holds at each moment of some calls and of the calls after them holds at each moment of both. Windows in a row
/// combine into one. For a settled device, a window can be stated against its content. What holds at each moment of
/// calls holds of the content after them, and of the content after a crash. Such a claim may be proved under the
/// assumption that the device is honest. The function does nothing: its contract is the law.
pub fn moments_join<D: Sectors, C: Sectors>()
    ensures calls { (old mid new : D) (p : Image → Bool)
        → AtEachMoment (D.view old) (D.view mid) (λ image. IsTrue (p image))
        → AtEachMoment (D.view mid) (D.view new) (λ image. IsTrue (p image))
        → AtEachMoment (D.view old) (D.view new) (λ image. IsTrue (p image)) }
    ensures windows { (old mid new : D) (at count place some : ℕ)
        → AtEachMoment (D.view old) (D.view mid) (DiffersFromNow (D.view old) at count)
        → AtEachMoment (D.view mid) (D.view new) (DiffersFromNow (D.view mid) place some)
        → at ≤ place → place + some ≤ at + count
        → AtEachMoment (D.view old) (D.view new) (DiffersFromNow (D.view old) at count) }
    ensures settled { (old new : D) (at count : ℕ) → IsSettled (D.view old)
        → AtEachMoment (D.view old) (D.view new) (DiffersFromNow (D.view old) at count)
        → AtEachMoment (D.view old) (D.view new) (DiffersOnlyIn at count (D.view old).content) }
    ensures content { (old new : D) (p : Image → Bool)
        → AtEachMoment (D.view old) (D.view new) (λ image. IsTrue (p image))
        → (D.view old).honest → IsTrue (p (D.view new).content) }
    ensures crash { (old before : D) (after : C) (p : Image → Bool)
        → AtEachMoment (D.view old) (D.view before) (λ image. IsTrue (p image))
        → IsAfterCrash (D.view before) (C.view after) → (D.view old).honest → IsTrue (p (C.view after).content) }
    ensures honest { (old new : D) (p : Image → Bool) → Continues (D.view old) (D.view new)
        → ((D.view old).honest → AtEachMoment (D.view old) (D.view new) (λ image. IsTrue (p image)))
        → AtEachMoment (D.view old) (D.view new) (λ image. IsTrue (p image)) }
{}
