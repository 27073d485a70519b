//! The messages of the protocol's core, in the order of their opcodes.

use crate::interface::Interface::{
    WlBuffer, WlCallback, WlDataDevice, WlDataOffer, WlDataSource, WlKeyboard, WlPointer, WlRegion,
    WlRegistry, WlShmPool, WlSubsurface, WlSurface, WlTouch,
};
use crate::rows::Place::New;
use crate::rows::Row::{Destructor, Message};
use crate::rows::{
    ARRAY, BOUND, FILE, FIXED, INT, OBJECT, OBJECT_OR_NULL, PIPE_END, Row, STRING, STRING_OR_NULL,
    UINT,
};

pub(crate) static WL_DISPLAY_REQUESTS: [Row; 2] = [
    Message("sync", &[New(WlCallback)]),
    Message("get_registry", &[New(WlRegistry)]),
];

pub(crate) static WL_DISPLAY_EVENTS: [Row; 2] = [
    Message("error", &[OBJECT, UINT, STRING]),
    Message("delete_id", &[UINT]),
];

pub(crate) static WL_REGISTRY_REQUESTS: [Row; 1] = [Message("bind", &[UINT, BOUND])];

pub(crate) static WL_REGISTRY_EVENTS: [Row; 2] = [
    Message("global", &[UINT, STRING, UINT]),
    Message("global_remove", &[UINT]),
];

pub(crate) static WL_CALLBACK_EVENTS: [Row; 1] = [Destructor("done", &[UINT])];

pub(crate) static WL_COMPOSITOR_REQUESTS: [Row; 2] = [
    Message("create_surface", &[New(WlSurface)]),
    Message("create_region", &[New(WlRegion)]),
];

pub(crate) static WL_SHM_REQUESTS: [Row; 1] = [Message(
    "create_pool",
    &[New(WlShmPool), FILE, INT],
)];

pub(crate) static WL_SHM_EVENTS: [Row; 1] = [Message("format", &[UINT])];

pub(crate) static WL_SHM_POOL_REQUESTS: [Row; 3] = [
    Message("create_buffer", &[New(WlBuffer), INT, INT, INT, INT, UINT]),
    Destructor("destroy", &[]),
    Message("resize", &[INT]),
];

pub(crate) static WL_BUFFER_REQUESTS: [Row; 1] = [Destructor("destroy", &[])];

pub(crate) static WL_BUFFER_EVENTS: [Row; 1] = [Message("release", &[])];

pub(crate) static WL_SURFACE_REQUESTS: [Row; 11] = [
    Destructor("destroy", &[]),
    Message("attach", &[OBJECT_OR_NULL, INT, INT]),
    Message("damage", &[INT, INT, INT, INT]),
    Message("frame", &[New(WlCallback)]),
    Message("set_opaque_region", &[OBJECT_OR_NULL]),
    Message("set_input_region", &[OBJECT_OR_NULL]),
    Message("commit", &[]),
    Message("set_buffer_transform", &[INT]),
    Message("set_buffer_scale", &[INT]),
    Message("damage_buffer", &[INT, INT, INT, INT]),
    Message("offset", &[INT, INT]),
];

pub(crate) static WL_SURFACE_EVENTS: [Row; 4] = [
    Message("enter", &[OBJECT]),
    Message("leave", &[OBJECT]),
    Message("preferred_buffer_scale", &[INT]),
    Message("preferred_buffer_transform", &[UINT]),
];

pub(crate) static WL_REGION_REQUESTS: [Row; 3] = [
    Destructor("destroy", &[]),
    Message("add", &[INT, INT, INT, INT]),
    Message("subtract", &[INT, INT, INT, INT]),
];

pub(crate) static WL_SEAT_REQUESTS: [Row; 4] = [
    Message("get_pointer", &[New(WlPointer)]),
    Message("get_keyboard", &[New(WlKeyboard)]),
    Message("get_touch", &[New(WlTouch)]),
    Destructor("release", &[]),
];

pub(crate) static WL_SEAT_EVENTS: [Row; 2] = [
    Message("capabilities", &[UINT]),
    Message("name", &[STRING]),
];

pub(crate) static WL_POINTER_REQUESTS: [Row; 2] = [
    Message("set_cursor", &[UINT, OBJECT_OR_NULL, INT, INT]),
    Destructor("release", &[]),
];

pub(crate) static WL_POINTER_EVENTS: [Row; 9] = [
    Message("enter", &[UINT, OBJECT, FIXED, FIXED]),
    Message("leave", &[UINT, OBJECT]),
    Message("motion", &[UINT, FIXED, FIXED]),
    Message("button", &[UINT, UINT, UINT, UINT]),
    Message("axis", &[UINT, UINT, FIXED]),
    Message("frame", &[]),
    Message("axis_source", &[UINT]),
    Message("axis_stop", &[UINT, UINT]),
    Message("axis_discrete", &[UINT, INT]),
];

pub(crate) static WL_KEYBOARD_REQUESTS: [Row; 1] = [Destructor("release", &[])];

pub(crate) static WL_KEYBOARD_EVENTS: [Row; 6] = [
    Message("keymap", &[UINT, FILE, UINT]),
    Message("enter", &[UINT, OBJECT, ARRAY]),
    Message("leave", &[UINT, OBJECT]),
    Message("key", &[UINT, UINT, UINT, UINT]),
    Message("modifiers", &[UINT, UINT, UINT, UINT, UINT]),
    Message("repeat_info", &[INT, INT]),
];

pub(crate) static WL_TOUCH_REQUESTS: [Row; 1] = [Destructor("release", &[])];

pub(crate) static WL_TOUCH_EVENTS: [Row; 7] = [
    Message("down", &[UINT, UINT, OBJECT, INT, FIXED, FIXED]),
    Message("up", &[UINT, UINT, INT]),
    Message("motion", &[UINT, INT, FIXED, FIXED]),
    Message("frame", &[]),
    Message("cancel", &[]),
    Message("shape", &[INT, FIXED, FIXED]),
    Message("orientation", &[INT, FIXED]),
];

pub(crate) static WL_OUTPUT_REQUESTS: [Row; 1] = [Destructor("release", &[])];

pub(crate) static WL_OUTPUT_EVENTS: [Row; 6] = [
    Message("geometry", &[INT, INT, INT, INT, INT, STRING, STRING, INT]),
    Message("mode", &[UINT, INT, INT, INT]),
    Message("done", &[]),
    Message("scale", &[INT]),
    Message("name", &[STRING]),
    Message("description", &[STRING]),
];

pub(crate) static WL_SUBCOMPOSITOR_REQUESTS: [Row; 2] = [
    Destructor("destroy", &[]),
    Message("get_subsurface", &[New(WlSubsurface), OBJECT, OBJECT]),
];

pub(crate) static WL_SUBSURFACE_REQUESTS: [Row; 6] = [
    Destructor("destroy", &[]),
    Message("set_position", &[INT, INT]),
    Message("place_above", &[OBJECT]),
    Message("place_below", &[OBJECT]),
    Message("set_sync", &[]),
    Message("set_desync", &[]),
];

pub(crate) static WL_DATA_DEVICE_MANAGER_REQUESTS: [Row; 2] = [
    Message("create_data_source", &[New(WlDataSource)]),
    Message("get_data_device", &[New(WlDataDevice), OBJECT]),
];

pub(crate) static WL_DATA_DEVICE_REQUESTS: [Row; 3] = [
    Message(
        "start_drag",
        &[OBJECT_OR_NULL, OBJECT, OBJECT_OR_NULL, UINT],
    ),
    Message("set_selection", &[OBJECT_OR_NULL, UINT]),
    Destructor("release", &[]),
];

pub(crate) static WL_DATA_DEVICE_EVENTS: [Row; 6] = [
    Message("data_offer", &[New(WlDataOffer)]),
    Message("enter", &[UINT, OBJECT, FIXED, FIXED, OBJECT_OR_NULL]),
    Message("leave", &[]),
    Message("motion", &[UINT, FIXED, FIXED]),
    Message("drop", &[]),
    Message("selection", &[OBJECT_OR_NULL]),
];

pub(crate) static WL_DATA_SOURCE_REQUESTS: [Row; 3] = [
    Message("offer", &[STRING]),
    Destructor("destroy", &[]),
    Message("set_actions", &[UINT]),
];

pub(crate) static WL_DATA_SOURCE_EVENTS: [Row; 6] = [
    Message("target", &[STRING_OR_NULL]),
    Message("send", &[STRING, PIPE_END]),
    Message("cancelled", &[]),
    Message("dnd_drop_performed", &[]),
    Message("dnd_finished", &[]),
    Message("action", &[UINT]),
];

pub(crate) static WL_DATA_OFFER_REQUESTS: [Row; 5] = [
    Message("accept", &[UINT, STRING_OR_NULL]),
    Message("receive", &[STRING, PIPE_END]),
    Destructor("destroy", &[]),
    Message("finish", &[]),
    Message("set_actions", &[UINT, UINT]),
];

pub(crate) static WL_DATA_OFFER_EVENTS: [Row; 3] = [
    Message("offer", &[STRING]),
    Message("source_actions", &[UINT]),
    Message("action", &[UINT]),
];
