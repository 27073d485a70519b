//! The messages of each interface.

ghost use Rattle.std.specs.Prelude.{◌≡◌, ◌≤◌, map, length, IsTrue, IfSome, option_map};
ghost use Rattle.std.specs.List.{list_all};
ghost use Rattle.wl_tables.specs.declared.way.Way.{Way};
ghost use Rattle.wl_tables.specs.Table.{messages};
ghost use Rattle.wl_tables.specs.Rows.{row_of, is_short};
ghost use Rattle.wl_tables.specs.Messages.{row};
ghost use Rattle.wl_tables.specs.Ways.{way_of};

use crate::core_rows::{
    WL_BUFFER_EVENTS, WL_BUFFER_REQUESTS, WL_CALLBACK_EVENTS, WL_COMPOSITOR_REQUESTS,
    WL_DATA_DEVICE_EVENTS, WL_DATA_DEVICE_MANAGER_REQUESTS, WL_DATA_DEVICE_REQUESTS,
    WL_DATA_OFFER_EVENTS, WL_DATA_OFFER_REQUESTS, WL_DATA_SOURCE_EVENTS, WL_DATA_SOURCE_REQUESTS,
    WL_DISPLAY_EVENTS, WL_DISPLAY_REQUESTS, WL_KEYBOARD_EVENTS, WL_KEYBOARD_REQUESTS,
    WL_OUTPUT_EVENTS, WL_OUTPUT_REQUESTS, WL_POINTER_EVENTS, WL_POINTER_REQUESTS,
    WL_REGION_REQUESTS, WL_REGISTRY_EVENTS, WL_REGISTRY_REQUESTS, WL_SEAT_EVENTS, WL_SEAT_REQUESTS,
    WL_SHM_EVENTS, WL_SHM_POOL_REQUESTS, WL_SHM_REQUESTS, WL_SUBCOMPOSITOR_REQUESTS,
    WL_SUBSURFACE_REQUESTS, WL_SURFACE_EVENTS, WL_SURFACE_REQUESTS, WL_TOUCH_EVENTS,
    WL_TOUCH_REQUESTS,
};
use crate::interface::Interface;
use crate::rows::Row;
use crate::shell_rows::{
    XDG_POPUP_EVENTS, XDG_POPUP_REQUESTS, XDG_POSITIONER_REQUESTS, XDG_SURFACE_EVENTS,
    XDG_SURFACE_REQUESTS, XDG_TOPLEVEL_EVENTS, XDG_TOPLEVEL_REQUESTS, XDG_WM_BASE_EVENTS,
    XDG_WM_BASE_REQUESTS,
};

/// The requests of an interface in the order of their opcodes.
fn requests_of(interface: Interface) -> &'static [Row]
    ensures rows { map row_of result.now ≡ messages interface Way.Request }
    ensures few { length result.now ≤ 16 }
    ensures short { IsTrue (list_all (λ it. is_short (row_of it)) result.now) }
{
    match interface {
        Interface::WlDisplay => &WL_DISPLAY_REQUESTS,
        Interface::WlRegistry => &WL_REGISTRY_REQUESTS,
        Interface::WlCallback => &[],
        Interface::WlCompositor => &WL_COMPOSITOR_REQUESTS,
        Interface::WlShm => &WL_SHM_REQUESTS,
        Interface::WlShmPool => &WL_SHM_POOL_REQUESTS,
        Interface::WlBuffer => &WL_BUFFER_REQUESTS,
        Interface::WlSurface => &WL_SURFACE_REQUESTS,
        Interface::WlRegion => &WL_REGION_REQUESTS,
        Interface::WlSeat => &WL_SEAT_REQUESTS,
        Interface::WlPointer => &WL_POINTER_REQUESTS,
        Interface::WlKeyboard => &WL_KEYBOARD_REQUESTS,
        Interface::WlTouch => &WL_TOUCH_REQUESTS,
        Interface::WlOutput => &WL_OUTPUT_REQUESTS,
        Interface::WlSubcompositor => &WL_SUBCOMPOSITOR_REQUESTS,
        Interface::WlSubsurface => &WL_SUBSURFACE_REQUESTS,
        Interface::WlDataDeviceManager => &WL_DATA_DEVICE_MANAGER_REQUESTS,
        Interface::WlDataDevice => &WL_DATA_DEVICE_REQUESTS,
        Interface::WlDataSource => &WL_DATA_SOURCE_REQUESTS,
        Interface::WlDataOffer => &WL_DATA_OFFER_REQUESTS,
        Interface::XdgWmBase => &XDG_WM_BASE_REQUESTS,
        Interface::XdgPositioner => &XDG_POSITIONER_REQUESTS,
        Interface::XdgSurface => &XDG_SURFACE_REQUESTS,
        Interface::XdgToplevel => &XDG_TOPLEVEL_REQUESTS,
        Interface::XdgPopup => &XDG_POPUP_REQUESTS,
    }
}

/// The events of an interface in the order of their opcodes.
fn events_of(interface: Interface) -> &'static [Row]
    ensures rows { map row_of result.now ≡ messages interface Way.Event }
    ensures few { length result.now ≤ 16 }
    ensures short { IsTrue (list_all (λ it. is_short (row_of it)) result.now) }
{
    match interface {
        Interface::WlDisplay => &WL_DISPLAY_EVENTS,
        Interface::WlRegistry => &WL_REGISTRY_EVENTS,
        Interface::WlCallback => &WL_CALLBACK_EVENTS,
        Interface::WlCompositor => &[],
        Interface::WlShm => &WL_SHM_EVENTS,
        Interface::WlShmPool => &[],
        Interface::WlBuffer => &WL_BUFFER_EVENTS,
        Interface::WlSurface => &WL_SURFACE_EVENTS,
        Interface::WlRegion => &[],
        Interface::WlSeat => &WL_SEAT_EVENTS,
        Interface::WlPointer => &WL_POINTER_EVENTS,
        Interface::WlKeyboard => &WL_KEYBOARD_EVENTS,
        Interface::WlTouch => &WL_TOUCH_EVENTS,
        Interface::WlOutput => &WL_OUTPUT_EVENTS,
        Interface::WlSubcompositor => &[],
        Interface::WlSubsurface => &[],
        Interface::WlDataDeviceManager => &[],
        Interface::WlDataDevice => &WL_DATA_DEVICE_EVENTS,
        Interface::WlDataSource => &WL_DATA_SOURCE_EVENTS,
        Interface::WlDataOffer => &WL_DATA_OFFER_EVENTS,
        Interface::XdgWmBase => &XDG_WM_BASE_EVENTS,
        Interface::XdgPositioner => &[],
        Interface::XdgSurface => &XDG_SURFACE_EVENTS,
        Interface::XdgToplevel => &XDG_TOPLEVEL_EVENTS,
        Interface::XdgPopup => &XDG_POPUP_EVENTS,
    }
}

/// The messages of an interface in the order of their opcodes.
pub(crate) fn messages(interface: Interface, events: bool) -> &'static [Row]
    ensures rows { map row_of result.now ≡ messages interface (way_of events) }
    ensures few { length result.now ≤ 16 }
    ensures short { IsTrue (list_all (λ it. is_short (row_of it)) result.now) }
{
    if events {
        events_of(interface)
    } else {
        requests_of(interface)
    }
}

/// The row of a message, if there is one.
pub(crate) fn row_at(interface: Interface, events: bool, opcode: u16) -> Option<Row>
    ensures row { option_map row_of result ≡ row interface events opcode }
    ensures short { IfSome result (λ it. IsTrue (is_short (row_of it))) }
{
    match messages(interface, events).get(opcode as usize) {
        Some(row) => Some(*row),
        None => None,
    }
}
