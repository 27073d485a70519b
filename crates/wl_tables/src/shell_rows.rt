//! The messages of the stable xdg-shell, in the order of their opcodes.

use crate::interface::Interface::{XdgPopup, XdgPositioner, XdgSurface, XdgToplevel};
use crate::rows::Place::New;
use crate::rows::Row::{Destructor, Message};
use crate::rows::{ARRAY, INT, OBJECT, OBJECT_OR_NULL, Row, STRING, UINT};

pub(crate) static XDG_WM_BASE_REQUESTS: [Row; 4] = [
    Destructor("destroy", &[]),
    Message("create_positioner", &[New(XdgPositioner)]),
    Message("get_xdg_surface", &[New(XdgSurface), OBJECT]),
    Message("pong", &[UINT]),
];

pub(crate) static XDG_WM_BASE_EVENTS: [Row; 1] = [Message("ping", &[UINT])];

pub(crate) static XDG_POSITIONER_REQUESTS: [Row; 10] = [
    Destructor("destroy", &[]),
    Message("set_size", &[INT, INT]),
    Message("set_anchor_rect", &[INT, INT, INT, INT]),
    Message("set_anchor", &[UINT]),
    Message("set_gravity", &[UINT]),
    Message("set_constraint_adjustment", &[UINT]),
    Message("set_offset", &[INT, INT]),
    Message("set_reactive", &[]),
    Message("set_parent_size", &[INT, INT]),
    Message("set_parent_configure", &[UINT]),
];

pub(crate) static XDG_SURFACE_REQUESTS: [Row; 5] = [
    Destructor("destroy", &[]),
    Message("get_toplevel", &[New(XdgToplevel)]),
    Message("get_popup", &[New(XdgPopup), OBJECT_OR_NULL, OBJECT]),
    Message("set_window_geometry", &[INT, INT, INT, INT]),
    Message("ack_configure", &[UINT]),
];

pub(crate) static XDG_SURFACE_EVENTS: [Row; 1] = [Message("configure", &[UINT])];

pub(crate) static XDG_TOPLEVEL_REQUESTS: [Row; 14] = [
    Destructor("destroy", &[]),
    Message("set_parent", &[OBJECT_OR_NULL]),
    Message("set_title", &[STRING]),
    Message("set_app_id", &[STRING]),
    Message("show_window_menu", &[OBJECT, UINT, INT, INT]),
    Message("move", &[OBJECT, UINT]),
    Message("resize", &[OBJECT, UINT, UINT]),
    Message("set_max_size", &[INT, INT]),
    Message("set_min_size", &[INT, INT]),
    Message("set_maximized", &[]),
    Message("unset_maximized", &[]),
    Message("set_fullscreen", &[OBJECT_OR_NULL]),
    Message("unset_fullscreen", &[]),
    Message("set_minimized", &[]),
];

pub(crate) static XDG_TOPLEVEL_EVENTS: [Row; 4] = [
    Message("configure", &[INT, INT, ARRAY]),
    Message("close", &[]),
    Message("configure_bounds", &[INT, INT]),
    Message("wm_capabilities", &[ARRAY]),
];

pub(crate) static XDG_POPUP_REQUESTS: [Row; 3] = [
    Destructor("destroy", &[]),
    Message("grab", &[OBJECT, UINT]),
    Message("reposition", &[OBJECT, UINT]),
];

pub(crate) static XDG_POPUP_EVENTS: [Row; 3] = [
    Message("configure", &[INT, INT, INT, INT]),
    Message("popup_done", &[]),
    Message("repositioned", &[UINT]),
];
