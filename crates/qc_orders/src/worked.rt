// Worked lines, computed from the definitions. Nothing runs here: the contracts are the equations.
ghost use Rattle.std.specs.Prelude.{◌≡◌, Some, Ok, Err, map};
ghost use Rattle.qc_orders.specs.Orders.{order_of, order_in};
ghost use Rattle.qc_orders.specs.Worked.{worked_orders, worked_faults, worked_bodies};

/// A line for each order, and what it asks for (docs/FORMATS.md, "Order lines").
pub fn each_order_is_read()
    ensures { map (λ w. order_of w.0) worked_orders ≡ map (λ w. Ok (record { at = 7; act = w.1 })) worked_orders }
{}

/// Lines that are no order, and the member at fault (docs/FORMATS.md, "Order lines").
pub fn the_member_at_fault_is_told()
    ensures { map (λ w. order_of w.0) worked_faults ≡ map (λ w. Err w.1) worked_faults }
{}

/// Orders without a moment of their own (docs/FORMATS.md, "Order lines").
pub fn a_moment_is_handed_in()
    ensures { map (λ w. order_in (Some 7) w.0) worked_bodies ≡ map (λ w. w.1) worked_bodies }
{}
