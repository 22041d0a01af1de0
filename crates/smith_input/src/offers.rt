//! Choices among what is offered.

ghost use Rattle.std.specs.Prelude.{◌≡◌, [], length, slice_get, MatchOption};
ghost use Rattle.smith_input.specs.Choices.{ReadsAmong};
ghost use Rattle.smith_input.specs.Offers.{offers_of};

use crate::unstructured::Unstructured;

// How many items are offered.
fn count_offers<T: Copy>(offers: &[(bool, T)]) -> usize
    ensures { result ≡ length (offers_of offers.now) }
{
    let mut count = 0;
    for offer in offers {
        if offer.0 {
            count += 1;
        }
    }
    count
}

// The item at that place among the offered ones, or none past the last.
fn offer_at<T: Copy>(offers: &[(bool, T)], place: usize) -> Option<T>
    ensures { result ≡ slice_get (offers_of offers.now) place }
{
    let mut left = place;
    for offer in offers {
        if offer.0 {
            if left == 0 {
                return Some(offer.1);
            }
            left -= 1;
        }
    }
    None
}

/// One of the items whose condition holds, by a choice among their places; none exactly if none does, and then nothing
/// is read. No memory is taken.
pub fn choose_offered<T: Copy>(u: &mut Unstructured, offers: &[(bool, T)]) -> Option<T>
    ensures { MatchOption result
        ((offers_of offers.now ≡ []) × (u.new ≡ u.old))
        (λ item. ReadsAmong (offers_of offers.now) u.old item u.new) }
{
    let count = count_offers(offers);
    if count == 0 {
        return None;
    }
    let place = u.choose_index(count);
    offer_at(offers, place)
}
