//! The interfaces and their names.

ghost use Rattle.std.specs.Prelude.{◌≡◌, find};
ghost use Rattle.std.specs.Str.{bytes_eq};
ghost use Rattle.wl_tables.specs.Interfaces.{interface_name, interface_of, max_version};

/// The interfaces of the Wayland protocol's core and of the stable xdg-shell that messages may use.
#[derive(Clone, Copy, Debug, PartialEq, Eq)]
pub enum Interface {
    /// `wl_display`: the connection itself, object 1.
    WlDisplay,
    /// `wl_registry`: the list of globals.
    WlRegistry,
    /// `wl_callback`: tells once that something is done.
    WlCallback,
    /// `wl_compositor`: makes surfaces and regions.
    WlCompositor,
    /// `wl_shm`: shares memory.
    WlShm,
    /// `wl_shm_pool`: a file of shared memory.
    WlShmPool,
    /// `wl_buffer`: the pixels of a surface.
    WlBuffer,
    /// `wl_surface`: a rectangle of pixels on the screen.
    WlSurface,
    /// `wl_region`: a set of rectangles.
    WlRegion,
    /// `wl_seat`: a group of input devices.
    WlSeat,
    /// `wl_pointer`: a pointing device.
    WlPointer,
    /// `wl_keyboard`: a keyboard.
    WlKeyboard,
    /// `wl_touch`: a touch screen.
    WlTouch,
    /// `wl_output`: a screen.
    WlOutput,
    /// `wl_subcompositor`: makes surfaces into parts of others.
    WlSubcompositor,
    /// `wl_subsurface`: the place of a surface in another.
    WlSubsurface,
    /// `wl_data_device_manager`: makes data devices and data sources.
    WlDataDeviceManager,
    /// `wl_data_device`: the clipboard and drag and drop of a seat.
    WlDataDevice,
    /// `wl_data_source`: data that a client offers.
    WlDataSource,
    /// `wl_data_offer`: data that a client is offered.
    WlDataOffer,
    /// `xdg_wm_base`: makes surfaces into windows.
    XdgWmBase,
    /// `xdg_positioner`: the rules for the place of a popup.
    XdgPositioner,
    /// `xdg_surface`: a surface with the role of a window.
    XdgSurface,
    /// `xdg_toplevel`: a window.
    XdgToplevel,
    /// `xdg_popup`: a menu or another short-lived window.
    XdgPopup,
}

/// Each interface once.
static INTERFACES: [Interface; 25] = [
    Interface::WlDisplay,
    Interface::WlRegistry,
    Interface::WlCallback,
    Interface::WlCompositor,
    Interface::WlShm,
    Interface::WlShmPool,
    Interface::WlBuffer,
    Interface::WlSurface,
    Interface::WlRegion,
    Interface::WlSeat,
    Interface::WlPointer,
    Interface::WlKeyboard,
    Interface::WlTouch,
    Interface::WlOutput,
    Interface::WlSubcompositor,
    Interface::WlSubsurface,
    Interface::WlDataDeviceManager,
    Interface::WlDataDevice,
    Interface::WlDataSource,
    Interface::WlDataOffer,
    Interface::XdgWmBase,
    Interface::XdgPositioner,
    Interface::XdgSurface,
    Interface::XdgToplevel,
    Interface::XdgPopup,
];

/// The name of an interface, as `wl_registry.global` gives it.
pub fn interface_name(interface: Interface) -> &'static str
    ensures { result.now ≡ interface_name interface }
{
    match interface {
        Interface::WlDisplay => "wl_display",
        Interface::WlRegistry => "wl_registry",
        Interface::WlCallback => "wl_callback",
        Interface::WlCompositor => "wl_compositor",
        Interface::WlShm => "wl_shm",
        Interface::WlShmPool => "wl_shm_pool",
        Interface::WlBuffer => "wl_buffer",
        Interface::WlSurface => "wl_surface",
        Interface::WlRegion => "wl_region",
        Interface::WlSeat => "wl_seat",
        Interface::WlPointer => "wl_pointer",
        Interface::WlKeyboard => "wl_keyboard",
        Interface::WlTouch => "wl_touch",
        Interface::WlOutput => "wl_output",
        Interface::WlSubcompositor => "wl_subcompositor",
        Interface::WlSubsurface => "wl_subsurface",
        Interface::WlDataDeviceManager => "wl_data_device_manager",
        Interface::WlDataDevice => "wl_data_device",
        Interface::WlDataSource => "wl_data_source",
        Interface::WlDataOffer => "wl_data_offer",
        Interface::XdgWmBase => "xdg_wm_base",
        Interface::XdgPositioner => "xdg_positioner",
        Interface::XdgSurface => "xdg_surface",
        Interface::XdgToplevel => "xdg_toplevel",
        Interface::XdgPopup => "xdg_popup",
    }
}

/// The first of some interfaces with this name.
fn named_among(interfaces: &[Interface], name: &[u8]) -> Option<Interface>
    ensures { result ≡ find (λ it. bytes_eq (interface_name it) name.now) interfaces.now }
{
    for interface in interfaces {
        if interface_name(*interface).as_bytes() == name {
            return Some(*interface);
        }
    }
    None
}

/// The interface with exactly this name, or none.
pub fn interface_of(name: &[u8]) -> Option<Interface>
    ensures { result ≡ interface_of name.now }
{
    named_among(&INTERFACES, name)
}

/// The greatest version of a global that is shown, or none where the interface is no global.
pub fn max_version(interface: Interface) -> Option<u32>
    ensures { result ≡ max_version interface }
{
    match interface {
        Interface::WlCompositor => Some(6),
        Interface::WlShm => Some(1),
        Interface::WlSeat => Some(7),
        Interface::WlOutput => Some(4),
        Interface::WlSubcompositor => Some(1),
        Interface::WlDataDeviceManager => Some(3),
        Interface::XdgWmBase => Some(5),
        _ => None,
    }
}
