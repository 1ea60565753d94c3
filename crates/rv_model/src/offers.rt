//! The order of offers, and the order in which a cursor holds them.
ghost use Rattle.std.proofs.Common.{refl};
ghost use Rattle.std.specs.Prelude.{◌≡◌};
ghost use Rattle.std.specs.Cmp.{eq_by_cmp_equiv, partial_equiv_from_equiv, partial_order_from_total};
ghost use Rattle.std.specs.Ordering.{as_partial_cmp, eq_by_cmp};
ghost use Rattle.rv_model.specs.Offers.{offer_cmp};
ghost use Rattle.rv_model.specs.OfferOrder.{offer_cmp_total};

use crate::state::Offer;
use rv_value::cmp_values;
use std::cmp::Ordering;

/// By the order values, then by the values returned. This is total.
pub fn cmp_offer(a: &Offer, b: &Offer) -> Ordering
    ensures { result ≡ offer_cmp a.now b.now }
{
    match cmp_values(a.order.as_slice(), b.order.as_slice()) {
        Ordering::Equal => cmp_values(a.returned.as_slice(), b.returned.as_slice()),
        order => order,
    }
}

impl PartialEq for Offer {
    ghost eq = { eq_by_cmp offer_cmp };

    ghost laws = { partial_equiv_from_equiv (eq_by_cmp_equiv offer_cmp_total) };

    fn eq(&self, other: &Offer) -> bool {
        cmp_offer(self, other) == Ordering::Equal
    }
}

impl Eq for Offer {
    ghost laws = { eq_by_cmp_equiv offer_cmp_total };
}

impl PartialOrd for Offer {
    ghost partial_cmp = { as_partial_cmp offer_cmp };

    ghost laws = { partial_order_from_total offer_cmp_total };

    fn partial_cmp(&self, other: &Offer) -> Option<Ordering> {
        Some(cmp_offer(self, other))
    }
}

impl Ord for Offer {
    ghost cmp = { offer_cmp };

    ghost total = { offer_cmp_total };

    ghost matches_partial_cmp = { λ x y. refl };

    ghost matches_eq = { λ x y. refl };

    fn cmp(&self, other: &Offer) -> Ordering {
        cmp_offer(self, other)
    }
}
