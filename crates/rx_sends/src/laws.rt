// Laws of messages.
ghost use Rattle.std.specs.Prelude.{ℕ, List};
ghost use Rattle.rx_tree.specs.Object.{Object};
ghost use Rattle.rx_builtin.specs.declared.facts.Facts.{Facts};
ghost use Rattle.rx_classes.specs.Installing.{CanInstall};
ghost use Rattle.rx_native.specs.Fitting.{Fits, IsThere};
ghost use Rattle.rx_sends.specs.Delivering.{delivery};
ghost use Rattle.rx_sends.specs.Keeping.{DeliveryKeeps, FitsAfter};
ghost use Rattle.rx_sends.specs.Sending.{sent};
ghost use Rattle.rx_sends.specs.Settings.{Setting};
ghost use Rattle.rx_frames.specs.Frames.{positions};
ghost use Rattle.rx_frames.specs.declared.position.Position.{Position};
ghost use Rattle.rx_sends.specs.Parts.{Parts};
ghost use Rattle.rx_sends.specs.declared.parts.Sent.{Sent};

/// Whatever sending a message comes to, objects and classes fit still. No message loses a Message that waits, and START begins a new
/// one.
pub fn sending_laws()
    ensures fits { (facts : Facts) (parts : Parts Position) (a : ℕ) (message : Sent)
        → CanInstall parts.classes → Fits parts.classes parts.objects → IsThere parts.objects message.target
        → FitsAfter (sent positions facts parts a message) }
    ensures keeps { (setting : Setting) (objects : List Object) (message : Sent)
        → Fits setting.classes objects → IsThere objects message.target → DeliveryKeeps objects (delivery setting objects message) }
{}
