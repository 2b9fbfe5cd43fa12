//! What holds of installation orders, as contracts.

ghost use Rattle.rx_install.specs.Laws.{AtMostOneOrder, EachInItsTurn, OrderOfAll};

/// Classes have at most one installation order. It has each of them once, and each stands behind its superclass and the mixins
/// that it inherits.
pub fn installation_laws()
    ensures one { AtMostOneOrder }
    ensures all { OrderOfAll }
    ensures turns { EachInItsTurn }
{}
