// What the calls share over an image: an event of its panel, a panel stored, and what show writes of a panel.
#![tactic(auto)]

ghost use Rattle.std.specs.Prelude.{◌≡◌, length};
ghost use Rattle.image.specs.Layout.{image_len};
ghost use Rattle.image.specs.Image.{decoded, encoded};
ghost use Rattle.events.specs.Update.{Applied, Updated};
ghost use Rattle.events.specs.Show.{shown_in};

use common::Refusal;
use panel::Panel;

// Stores the panel as the image.
pub fn store(image: &mut [u8], p: Panel)
    requires { length image.old ≡ image_len }
    ensures { image.new ≡ encoded p }
{
    image::save(image, image::encode(p));
}

// The panel in 64 bytes.
fn panel_in(image: &[u8]) -> Panel
    requires { length image.now ≡ image_len }
    ensures { result ≡ decoded image.now }
{
    image::decode(image::load(image))
}

// An event of the panel in 64 bytes, whether or not they are a valid image.
pub fn apply<F: FnOnce(Panel) -> Panel>(image: &mut [u8], event: F)
    requires image_len { length image.old ≡ image_len }
    requires callable { F.IsAlwaysCallable event }
    ensures { Applied (F.post event) image.old image.new }
{
    let panel = panel_in(image);
    store(image, event(panel));
}

// An event of the panel in a valid image. Judged first and taken apart then: a panel handed out of the judgement by value made a tick take nearly
// three times as long.
#[tactic(auto, using(validity::proofs::Laws::valid_length))]
pub fn update<F: FnOnce(Panel) -> Panel>(image: &mut [u8], event: F) -> Result<(), Refusal>
    requires { F.IsAlwaysCallable event }
    ensures { Updated (F.post event) image.old image.new result }
{
    if !validity::is_valid(image) {
        return Err(Refusal::InvalidImage);
    }
    apply(image, event);
    Ok(())
}

// The five bytes of show.
pub fn show(p: Panel) -> [u8; 5]
    ensures { result ≡ shown_in p }
{
    let core = p.core;
    let registers = core.rtc.registers;
    let configuration = core.setup.configuration;
    display::show(registers, configuration, core.power.stby, p.display)
}
